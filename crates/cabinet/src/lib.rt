// The unit as a cabinet's firmware calls it from C: a factory start and a request, each on memories of words and on
// packed ones. Memory of any length and any mode is answered. The firmware owns all memory but the work lists, which a
// request keeps on the stack. Each entry stands for words and for packed octets, since C names a function for each. A library
// exports nothing to C: `cabinet_c` does, by a call of each entry here.
#![tactic(auto)]

ghost use Rattle.std.specs.Prelude.{◌≡◌, length};
ghost use Rattle.memory.specs.Held.{word_cells, word_highs, packed_cells, packed_spare};
ghost use Rattle.unit.specs.Steps.{FactoryStarted, Requested, moment, lent};

use memory::WordMemory;
use memory::packed::PackedMemory;
use unit::answer::Answer;
use unit::request;
use unit::request::{FINDINGS, NO_FINDING, NO_WRITE, WRITES};
use unit::start::factory_start;

// The factory start on words, one to a cell; their high octets over narrow cells are kept.
#[unsafe(no_mangle)]
pub extern "C" fn sagbuwen_factory_start_words(running: &mut [u16]) -> Answer
    ensures started { FactoryStarted (word_cells running.old) result (word_cells running.new) }
    ensures highs { word_highs running.new ≡ word_highs running.old }
{
    factory_start(&mut WordMemory { words: running })
}

// The factory start on packed octets.
#[unsafe(no_mangle)]
pub extern "C" fn sagbuwen_factory_start_packed(running: &mut [u8]) -> Answer
    ensures started { FactoryStarted (packed_cells running.old) result (packed_cells running.new) }
    ensures spare { packed_spare running.new ≡ packed_spare running.old }
{
    factory_start(&mut PackedMemory { octets: running })
}

// One request to a unit whose memories are words.
#[unsafe(no_mangle)]
pub extern "C" fn sagbuwen_request_words(
    mode: u8,
    running: &mut [u16],
    draft: &mut [u16],
    request: &[u8],
    reply: &mut [u8],
) -> Answer
    ensures requested { Requested (moment (word_cells running.old) (word_cells draft.old) mode) (lent (length reply.old) 1024 64) request.now reply.old result reply.new (moment (word_cells running.new) (word_cells draft.new) result.mode) }
    ensures running_highs { word_highs running.new ≡ word_highs running.old }
    ensures draft_highs { word_highs draft.new ≡ word_highs draft.old }
{
    let mut writes = [NO_WRITE; WRITES];
    let mut findings = [NO_FINDING; FINDINGS];
    request::request(
        mode,
        &mut WordMemory { words: running },
        &mut WordMemory { words: draft },
        request,
        reply,
        &mut writes,
        &mut findings,
    )
}

// One request to a unit whose memories are packed.
#[unsafe(no_mangle)]
pub extern "C" fn sagbuwen_request_packed(
    mode: u8,
    running: &mut [u8],
    draft: &mut [u8],
    request: &[u8],
    reply: &mut [u8],
) -> Answer
    ensures requested { Requested (moment (packed_cells running.old) (packed_cells draft.old) mode) (lent (length reply.old) 1024 64) request.now reply.old result reply.new (moment (packed_cells running.new) (packed_cells draft.new) result.mode) }
    ensures running_spare { packed_spare running.new ≡ packed_spare running.old }
    ensures draft_spare { packed_spare draft.new ≡ packed_spare draft.old }
{
    let mut writes = [NO_WRITE; WRITES];
    let mut findings = [NO_FINDING; FINDINGS];
    request::request(
        mode,
        &mut PackedMemory { octets: running },
        &mut PackedMemory { octets: draft },
        request,
        reply,
        &mut writes,
        &mut findings,
    )
}
