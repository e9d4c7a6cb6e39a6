// What holds of the whole table.
ghost use Rattle.std.specs.Prelude.{◌≡◌, ℕ, true};
ghost use Rattle.nv_isa.specs.declared.op.Op.{Op};
ghost use Rattle.nv_isa.specs.Table.{encoding, belongs};

/// No word belongs to two rows of the table.
#[tactic(auto, using(crate::proofs::Inverse::one_row))]
pub fn rows_are_apart()
    ensures { (word : ℕ) (a b : Op) → belongs word (encoding a) ≡ true → belongs word (encoding b) ≡ true → a ≡ b }
{}
