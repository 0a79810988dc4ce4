//! A law: the cells contain every pair of rates.
ghost use Rattle.std.specs.Prelude.{◌≡◌, ◌<◌, ℕ};
ghost use Rattle.blob_draws.specs.Cells.{first_cell_of, second_cell_of, config_in_cell, first_of, second_of, ForRates};

/// Each pair of rates in hundredths has one cell with each of the two modes, below 20402, and no two of these cells have
/// the same rates and mode.
pub fn every_cell_once()
    ensures prefix { ForRates (λ failure kept. config_in_cell (first_cell_of failure kept) ≡ first_of failure kept) }
    ensures subset { ForRates (λ failure kept. config_in_cell (second_cell_of failure kept) ≡ second_of failure kept) }
    ensures below { ForRates (λ failure kept. second_cell_of failure kept < 20402) }
    ensures once { (a b : ℕ) → a < 20402 → b < 20402 → config_in_cell a ≡ config_in_cell b → a ≡ b }
{}
