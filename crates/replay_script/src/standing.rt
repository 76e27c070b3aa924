//! Which texts stand in a line or in a block as they are.
ghost use Rattle.std.specs.Prelude.{◌≡◌, ◌==◌, ◌-◌, ◌<◌, ◌&&◌, not, length, slice_index};
ghost use Rattle.std.specs.List.{list_any, slice_split};
ghost use Rattle.host_port.specs.Cut.{is_dot, is_lf};
ghost use Rattle.replay_texts.specs.Texts.{breaks_block, breaks_line, ends_with_feed, is_lost};

use host_port::BLOCK_LIMIT;

/// Whether a message would be cut otherwise than it stands: a line feed ends its line, and a carriage return at the end is dropped.
pub(crate) fn breaks_line(message: &str) -> bool
    ensures { result ≡ breaks_line message.now }
{
    let bytes = message.as_bytes();
    bytes.contains(&b'\n') || ends_with(bytes, b'\r')
}

/// Whether a block can't hold a text: it is too long, its last line has no line feed, or a line of it is lost.
pub(crate) fn breaks_block(text: &str) -> bool
    ensures { result ≡ breaks_block text.now }
{
    let bytes = text.as_bytes();
    bytes.len() as u64 > BLOCK_LIMIT || lacks_feed(bytes) || loses_line(bytes)
}

/// Whether there is a last line without a line feed.
fn lacks_feed(bytes: &[u8]) -> bool
    ensures { result ≡ (not (length bytes.now == 0) && not (ends_with_feed bytes.now)) }
{
    !bytes.is_empty() && !ends_with(bytes, b'\n')
}

/// Whether a line is lost.
fn loses_line(bytes: &[u8]) -> bool
    ensures { result ≡ list_any is_lost (slice_split is_lf bytes.now) }
{
    bytes.split(|b| *b == b'\n').any(|line| is_lost(line))
}

/// Whether a line ends its block, or loses the carriage return at its end.
fn is_lost(line: &[u8]) -> bool
    ensures { result ≡ is_lost line.now }
{
    is_dot(line) || ends_with(line, b'\r')
}

/// Whether a line is `.` alone.
#[tactic(auto, using(crate::proofs::Dots::is_dot_of))]
fn is_dot(line: &[u8]) -> bool
    ensures { result ≡ is_dot line.now }
{
    line.len() == 1 && line[0] == b'.'
}

/// Whether that byte is the last of them.
fn ends_with(bytes: &[u8], byte: u8) -> bool
    requires { 0 < byte }
    ensures { result ≡ (slice_index bytes.now (length bytes.now - 1) == byte) }
{
    match bytes.last() {
        Some(last) => *last == byte,
        None => false,
    }
}
