//! Laws of the plain run.
ghost use Rattle.std.specs.Prelude.{◌≡◌, ℕ, ℤ, ◌^◌, ◌+◌, List, length};
ghost use Rattle.np_simplex.specs.Tableau.{Tableau, start, GoesOn};
ghost use Rattle.np_simplex.specs.Widths.{MeetsPast, IsWideRun, AreSmall};
ghost use Rattle.np_simplex.specs.Promises.{most_pivots};

/// A run of the plain simplex in which a sure arithmetic may refuse meets a number whose size is past `2^30`.
pub fn wide_run_law()
    ensures { (last : ℕ) (begin : Tableau) → IsWideRun last begin → MeetsPast (2 ^ 30) last begin }
{}

/// With one row and numbers below `2^40` in size a sure arithmetic refuses nothing.
pub fn one_row_law()
    ensures { (rows : List (List ℤ)) (right : List ℤ) (costs : List ℕ) → length rows ≡ 1 → length right ≡ length rows →
        AreSmall rows right costs → IsWideRun (length rows + length costs) (start rows right costs) → ⊥ }
{}

/// With one row there are never too many pivots.
pub fn one_row_pivots_law()
    ensures { (rows : List (List ℤ)) (right : List ℤ) (costs : List ℕ) → length rows ≡ 1 → length right ≡ length rows →
        GoesOn (length rows + length costs) (most_pivots (length rows) (length costs)) (start rows right costs) → ⊥ }
{}
