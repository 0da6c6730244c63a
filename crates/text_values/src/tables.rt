//! Words that stand in a table.

ghost use Rattle.std.specs.Prelude.{◌≡◌, map};
ghost use Rattle.text_values.specs.Tables.{key_named};

use small_texts::keywords::is_keyword;

/// What a text stands for in a table, in any case of letters. Linear in the table.
pub fn key_named<K: Copy>(table: &[(&[u8], K)], text: &[u8]) -> Option<K>
    ensures { result ≡ key_named (map (λ row. (row.0.now, row.1)) table.now) text.now }
{
    for (name, key) in table {
        if is_keyword(text, name) {
            return Some(*key);
        }
    }
    None
}
