// What get block and set block do on one memory.
#![tactic(auto)]

ghost use Rattle.block_requests.specs.Judged.{BlocksJudged, OneBlockReply};
ghost use Rattle.block_requests.specs.RoundTrip.{BlocksGoOver, AllowedBlocksGoOver};

pub mod fault;
pub mod get_block;
pub mod set_block;

// A block that was got from a table with allowed rows is taken by any draft, and the draft then has those rows.
pub fn blocks_go_over()
    ensures { BlocksGoOver }
{}

// A block that was got from a table whose cells are all allowed is taken by any draft, and the draft then has those rows.
pub fn allowed_blocks_go_over()
    ensures { AllowedBlocksGoOver }
{}

// Any octets are a block or have a fault, never both, and one of either.
pub fn every_block_is_judged()
    ensures { BlocksJudged }
{}

// The reply of a get block is told by the table and the request alone.
pub fn a_get_block_has_one_reply()
    ensures { OneBlockReply }
{}
