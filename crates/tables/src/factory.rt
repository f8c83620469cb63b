ghost use Rattle.std.specs.Prelude.{◌≡◌};
ghost use Rattle.tables.specs.Factory.{factory_cell, FactoryByPlace, FactoryAllowed};

// The factory value of a cell: 1 for a phase's startup, 2 for a split's mode, else 0.
pub fn factory_value(cell: usize) -> u16
    ensures { result ≡ factory_cell cell }
{
    match cell {
        ..608 => if cell % 38 == 18 { 1 } else { 0 },
        1408..2176 => if (cell - 1408) % 3 == 1 { 2 } else { 0 },
        _ => 0,
    }
}

// Each place of the factory table has its column's factory value.
#[tactic(auto, using(crate::proofs::FactoryFacts::factory_at))]
pub fn factory_values_stand_by_column()
    ensures { FactoryByPlace }
{}

// Every cell of the factory table is allowed.
#[tactic(auto, using(crate::proofs::FactoryFacts::factory_allowed))]
pub fn factory_table_is_allowed()
    ensures { FactoryAllowed }
{}
