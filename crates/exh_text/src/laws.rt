//! What holds of words and of printing, for all bytes. Each function does nothing.

ghost use Rattle.std.specs.Prelude.{◌≡◌, ◌≢◌, ◌<◌, ◌≤◌, ◌^◌, ℕ, Bool, List, [], ◌∷◌, ◌++◌, length, All, decimal};
ghost use Rattle.std.specs.List.{join_with_byte};
ghost use Rattle.exh_prefix.specs.Prefix.{prefix_text};
ghost use Rattle.exh_text.specs.ByteWord.{bytes_of_word};
ghost use Rattle.exh_text.specs.TextLines.{lines_of, newline, space, words_of};
ghost use Rattle.exh_text.specs.Numbers.{number_up_to};
ghost use Rattle.exh_text.specs.Printing.{place_text, printed};

/// A newline parts lines, and bytes without one are a line where there are some. So empty lines are skipped, and the last
/// line may lack its newline.
pub fn newlines_part_lines()
    ensures none { lines_of [] ≡ [] }
    ensures one { (line : List ℕ) → 0 < length line → All (λ byte. byte ≢ newline) line → lines_of line ≡ line ∷ [] }
    ensures more { (front rest : List ℕ) → lines_of (front ++ newline ∷ rest) ≡ lines_of front ++ lines_of rest }
{}

/// The words of a line, with single spaces between them, are the line.
pub fn spaces_part_words()
    ensures { (line : List ℕ) (words : List (List ℕ)) → words_of line ≡ Some words → join_with_byte space words ≡ line }
{}

/// A number has one spelling, that in which it is printed. It is one word.
pub fn numbers_are_decimal()
    ensures printed { (greatest number : ℕ) → greatest < 2 ^ 64 → number ≤ greatest → number_up_to greatest (decimal number) ≡ Some number }
    ensures alone { (greatest number : ℕ) (word : List ℕ) → greatest < 2 ^ 64 → number_up_to greatest word ≡ Some number → word ≡ decimal number }
    ensures word { (number : ℕ) → number < 2 ^ 64 → words_of (decimal number) ≡ Some (decimal number ∷ []) }
{}

/// What is printed of a value or a key is one word, and stands for its bytes again.
pub fn printed_is_read()
    ensures bytes { (bytes : List ℕ) → All (λ byte. byte < 256) bytes → bytes_of_word (printed bytes) ≡ Some bytes }
    ensures word { (bytes : List ℕ) → All (λ byte. byte < 256) bytes → words_of (printed bytes) ≡ Some (printed bytes ∷ []) }
{}

/// What is printed of a place is one word, and tells its two numbers.
pub fn printed_places_are_told()
    ensures word { (ward number : ℕ) → ward < 2 ^ 64 → number < 2 ^ 64 → words_of (place_text ward number) ≡ Some (place_text ward number ∷ []) }
    ensures told { (ward number ward' number' : ℕ) → ward < 2 ^ 64 → number < 2 ^ 64 → ward' < 2 ^ 64 → number' < 2 ^ 64 →
        place_text ward number ≡ place_text ward' number' → (ward ≡ ward') × (number ≡ number') }
{}

/// What is printed of a prefix is one word, and tells its bits.
pub fn printed_prefixes_are_told()
    ensures word { (bits : List Bool) → words_of (prefix_text bits) ≡ Some (prefix_text bits ∷ []) }
    ensures told { (bits others : List Bool) → prefix_text bits ≡ prefix_text others → bits ≡ others }
{}
