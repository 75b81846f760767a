// Texts as they stand in files.
// A text without the line end that editors put after it.
pub(crate) fn without_line_end(text: &[u8]) -> &[u8] {
    text.strip_suffix(b"\n").unwrap_or(text)
}
