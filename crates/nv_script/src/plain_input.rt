// What holds of plain input.
ghost use Rattle.std.specs.Prelude.{◌≡◌, ◌++◌, ◌∷◌, [], List, ℕ, true};
ghost use Rattle.std.specs.List.{list_all, concat, flat_map};
ghost use Rattle.nv_script.specs.Arrivals.{InputEnd, is_arrival};
ghost use Rattle.nv_script.specs.Order.{are_orderly};
ghost use Rattle.nv_script.specs.Pieces.{pieces, input_of};

/// What comes by reads of plain input is within the limits of arrivals and in their order, its end with it, however many clients may come, and has the bytes that the reads gave.
#[tactic(auto, using(crate::proofs::Plain::plain_limits, crate::proofs::Plain::plain_order, crate::proofs::Plain::plain_bytes))]
pub fn plain_input_comes()
    ensures limits { (reads : List (List ℕ)) → list_all is_arrival (input_of 2000 reads) ≡ true }
    ensures order { (most : ℕ) (reads : List (List ℕ)) → are_orderly most (input_of 2000 reads ++ InputEnd ∷ []) ≡ true }
    ensures bytes { (reads : List (List ℕ)) → concat (flat_map (pieces 2000) reads) ≡ concat reads }
{}
