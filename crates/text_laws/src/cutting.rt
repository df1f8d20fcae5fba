// The laws of the cut.
ghost use Rattle.std.specs.Prelude.{◌≡◌, ℕ, List};
ghost use Rattle.hs_texts.specs.declared.refusal.Refusal.{Refusal};
ghost use Rattle.hs_texts.specs.Pieces.{Placed, AreCut, IsTextOf, IsCutRefusal};

/// Bytes are cut into pieces in one way.
pub fn bytes_are_cut_one_way()
    ensures { (bytes : List ℕ) (ps qs : List Placed) → AreCut bytes ps → AreCut bytes qs → ps ≡ qs }
{}

/// Bytes are a text, or their cut has one refusal.
pub fn the_cut_has_one_answer()
    ensures text { (bytes : List ℕ) (ps : List Placed) (r : Refusal) → IsTextOf bytes ps → IsCutRefusal bytes r → ⊥ }
    ensures refusal { (bytes : List ℕ) (r s : Refusal) → IsCutRefusal bytes r → IsCutRefusal bytes s → r ≡ s }
{}
