//! Laws of the spellings and marks of cells, for proofs in the crates above.
ghost use Rattle.std.specs.Prelude.{◌≡◌, ◌+◌, ◌*◌, ◌<◌, ◌≤◌, ℕ, List, length, map, take, codes, Ok, Some};
ghost use Rattle.brl_cells.specs.Marks.{ascii_mark, ascii_marks, first_decade, marked};
ghost use Rattle.brl_cells.specs.Dots.{AreCells, reading, spelling};

/// The spelling of one cell or more is read as these cells, with any limit that they keep.
pub fn spelled_cells_are_read()
    ensures { (most : ℕ) (cells : List ℕ) → AreCells cells → 1 ≤ length cells → length cells ≤ most
        → reading most (spelling cells) ≡ Ok cells }
{}

/// Lists of cells with the same spelling are equal.
pub fn cells_have_one_spelling()
    ensures { (left right : List ℕ) → AreCells left → AreCells right → spelling left ≡ spelling right → left ≡ right }
{}

/// Whatever is read from a dots operand are cells.
pub fn cells_are_read()
    ensures { (most : ℕ) (bytes cells : List ℕ) → reading most bytes ≡ Ok cells → AreCells cells }
{}

/// No two cells have the same mark in braille ASCII, and the marks are characters from the blank to
/// `_`.
pub fn ascii_marks_differ()
    ensures differ { (left right mark : ℕ) → ascii_mark left ≡ Some mark → ascii_mark right ≡ Some mark → left ≡ right }
    ensures range { (cell mark : ℕ) → ascii_mark cell ≡ Some mark → (32 ≤ mark) × (mark < 96) }
{}

/// Letters and digits have their marks by the decades of braille. `K` to `T` are `A` to `J` with
/// dot 3, `U` to `Z` except `W` are `A` to `E` with the dots 3 and 6, and the digits are `A` to `J`
/// one row lower.
#[tactic(auto, unfolding(crate::specs::Marks::ascii_mark))]
pub fn ascii_marks_keep_decades()
    ensures first { ascii_marks first_decade ≡ marked (codes "ABCDEFGHIJ") }
    ensures second { ascii_marks (map (λ cell. cell + 4) first_decade) ≡ marked (codes "KLMNOPQRST") }
    ensures third { ascii_marks (map (λ cell. cell + 36) (take 5 first_decade)) ≡ marked (codes "UVXYZ") }
    ensures digits { ascii_marks (map (λ cell. 2 * cell) first_decade) ≡ marked (codes "1234567890") }
{}
