//! Tables from texts to values.

ghost use Rattle.std.specs.Prelude.{◌≡◌, map};
ghost use Rattle.ce_text.specs.Table.{table_value};

/// The value of a table's first row for a text.
pub fn look_up<T: Copy>(table: &[(&str, T)], text: &[u8]) -> Option<T>
    ensures { result ≡ table_value (map (λ row. (row.0.now, row.1)) table.now) text.now }
{
    for (word, value) in table {
        if word.as_bytes() == text {
            return Some(*value);
        }
    }
    None
}
