ghost use Rattle.std.specs.Prelude.{◌≡◌, ◌≤◌, length};
ghost use Rattle.std.specs.List.{prefix_len, position_or_len};
ghost use Rattle.stab_instructions.specs.Lines.{is_spacing as spacing, trimmed_front, trimmed_end, trimmed};
ghost use Rattle.stab_instructions.specs.Words.{is_blank as blank};

/// Whether the byte is a space, a tab or a carriage return.
pub fn is_spacing(byte: u8) -> bool
    ensures value { result ≡ spacing byte }
{
    byte == b' ' || byte == b'\t' || byte == b'\r'
}

fn spacing_len(bytes: &[u8]) -> usize
    ensures value { result ≡ prefix_len spacing bytes.now }
    ensures within { result ≤ length bytes.now }
{
    bytes.iter().take_while(|b| is_spacing(**b)).count()
}

/// How many bytes a word has that begins where the bytes begin: those in front of the first spacing.
pub fn word_len(bytes: &[u8]) -> usize
    ensures value { result ≡ position_or_len spacing bytes.now }
    ensures within { result ≤ length bytes.now }
{
    bytes.iter().take_while(|b| !is_spacing(**b)).count()
}

/// The bytes without the spacing in front.
pub fn without_spacing_in_front(bytes: &[u8]) -> &[u8]
    ensures value { result.now ≡ trimmed_front bytes.now }
{
    bytes.split_at(spacing_len(bytes)).1
}

fn without_spacing_at_end(bytes: &[u8]) -> &[u8]
    ensures value { result.now ≡ trimmed_end bytes.now }
{
    let mut end = bytes.len();
    while end > 0 && is_spacing(bytes[end - 1]) {
        end -= 1;
    }
    bytes.split_at(end).0
}

/// The bytes without the spacing at both ends.
pub fn without_spacing(bytes: &[u8]) -> &[u8]
    ensures value { result.now ≡ trimmed bytes.now }
{
    without_spacing_at_end(without_spacing_in_front(bytes))
}

/// Whether there is nothing but spacing.
pub fn is_blank(bytes: &[u8]) -> bool
    ensures value { result ≡ blank bytes.now }
{
    bytes.iter().all(|b| is_spacing(*b))
}
