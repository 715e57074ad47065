// Laws on the texts of lines. Nothing of them runs.
ghost use Rattle.pa_script.specs.Form.{AreDifferent, AreNames, IsReadBack};
ghost use Rattle.pa_script.specs.declared.op.Op.TheVariants.{Hide, LimitPivots, LimitRows, Merge, Quotient, Refine};
ghost use Rattle.std.specs.Prelude.{[], List, length, ℕ, ◌∷◌, ◌≤◌};

/// The canonical text of a limit, a merge, a refinement, a hiding and a quotient is read back as that
/// operation, where it is no longer than a line may be.
pub fn texts_are_read_back()
    ensures rows { (most : ℕ) → 1 ≤ most → most ≤ 4096 → IsReadBack (LimitRows most) }
    ensures pivots { (most : ℕ) → 1 ≤ most → most ≤ 4096 → IsReadBack (LimitPivots most) }
    ensures merge { (r a b : List ℕ) → AreNames (r ∷ a ∷ b ∷ []) → IsReadBack (Merge r a b) }
    ensures refine { (a b : List ℕ) → AreNames (a ∷ b ∷ []) → IsReadBack (Refine a b) }
    ensures hide { (r of : List ℕ) (names : List (List ℕ)) → AreNames (r ∷ of ∷ names) → 1 ≤ length names → AreDifferent names → IsReadBack (Hide r of names) }
    ensures quotient { (r c d : List ℕ) → AreNames (r ∷ c ∷ d ∷ []) → IsReadBack (Quotient r c d) }
{}
