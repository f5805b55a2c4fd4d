// Rows of tables and their columns.

/// Whether a line of a table is a row: remarks begin with `#`, and the others that aren't rows are empty.
pub fn is_row(line: &str) -> bool {
    !line.is_empty() && !line.starts_with("#")
}

/// Whether a table has a row.
pub fn has_rows(table: &str) -> bool {
    table.lines().any(is_row)
}

/// What stands before a mark and behind it, where it stands first; all of the text and nothing where it doesn't stand there.
pub fn split<'a>(text: &'a str, mark: &str) -> (&'a str, &'a str) {
    match text.split_once(mark) {
        Some(both) => both,
        None => (text, ""),
    }
}

/// The first column of a row and the rest of it, parted by a bar, without blanks around them.
pub fn parted(row: &str) -> (&str, &str) {
    let (first, rest) = split(row, "|");
    (first.trim(), rest.trim())
}

/// The three columns of a row.
pub fn columns(row: &str) -> (&str, &str, &str) {
    let (first, rest) = parted(row);
    let (second, third) = parted(rest);
    (first, second, third)
}

/// Whether this is one of the words of a text.
pub fn has_word(text: &str, wanted: &str) -> bool {
    text.split_whitespace().any(|word| word == wanted)
}
