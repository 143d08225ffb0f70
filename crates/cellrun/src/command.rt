//! Parses a line into a call.
ghost use Rattle.std.specs.Prelude.{◌≡◌, ◌≤◌, ℕ, ℤ, true, false, length, IsSome, IfSome, IfNone, SomeIff};
ghost use Rattle.std.specs.Str.Parse.{digits_value};
ghost use Rattle.cellrun.specs.Command.{Spells, SpellsNone, EndsWithValue, EndsWithWaker, has_operand, IsValue, IsDigits, number_of};
ghost use Rattle.cellrun.specs.declared.command.Command.{Command};

/// The greatest number of bytes in a line, not counting its line feed.
pub const MAX_LINE: usize = 64;

/// One call on the cell. The program's usage text lists the input line of each call, and what the
/// call prints.
#[derive(Clone, Copy, Debug, PartialEq, Eq)]
pub enum Command {
    Set(i64),
    OrSet(i64),
    Replace(i64),
    UpdatePut(i64),
    UpdateNone,
    UpdateKeep,
    UpdateSomeAdd(i64),
    Take(u64),
    Get(u64),
    TryTake,
    TryGet,
    IsSet,
    Own,
    End,
    Inner,
    Debug,
}

/// Parses a line. Returns `None` if it is not a call.
pub fn parse(line: &[u8]) -> Option<Command>
    ensures call { IfSome result (Spells line.now) }
    ensures not_too_long { IsSome result → length line.now ≤ MAX_LINE }
    ensures refused { IfNone result (length line.now ≤ MAX_LINE → SpellsNone line.now) }
{
    if line.len() > MAX_LINE {
        return None;
    }
    if let Some(call) = bare(line) {
        return Some(call);
    }
    with_operand(line)
}

/// Parses a line of words alone.
fn bare(line: &[u8]) -> Option<Command>
    ensures call { IfSome result (Spells line.now) }
    ensures refused { IfNone result
        ((call : Command) → has_operand call ≡ false → ¬ (Spells line.now call)) }
{
    match line {
        b"update none" => Some(Command::UpdateNone),
        b"update keep" => Some(Command::UpdateKeep),
        b"try_take" => Some(Command::TryTake),
        b"try_get" => Some(Command::TryGet),
        b"is_set" => Some(Command::IsSet),
        b"own" => Some(Command::Own),
        b"end" => Some(Command::End),
        b"inner" => Some(Command::Inner),
        b"debug" => Some(Command::Debug),
        _ => None,
    }
}

/// Parses a line that ends with a value or with the name of a waker.
fn with_operand(line: &[u8]) -> Option<Command>
    ensures call { IfSome result (Spells line.now) }
    ensures refused { IfNone result
        ((call : Command) → has_operand call ≡ true → ¬ (Spells line.now call)) }
{
    if let Some(value) = value_after(b"set ", line) {
        return Some(Command::Set(value));
    }
    if let Some(value) = value_after(b"or_set ", line) {
        return Some(Command::OrSet(value));
    }
    if let Some(value) = value_after(b"replace ", line) {
        return Some(Command::Replace(value));
    }
    if let Some(value) = value_after(b"update put ", line) {
        return Some(Command::UpdatePut(value));
    }
    if let Some(more) = value_after(b"update_some add ", line) {
        return Some(Command::UpdateSomeAdd(more));
    }
    if let Some(name) = waker_after(b"take ", line) {
        return Some(Command::Take(name));
    }
    if let Some(name) = waker_after(b"get ", line) {
        return Some(Command::Get(name));
    }
    None
}

/// Returns the value after these words, if the line is these words and a value.
fn value_after(words: &[u8], line: &[u8]) -> Option<i64>
    ensures some { IfSome result (EndsWithValue words.now line.now) }
    ensures none { IfNone result ((v : ℤ) → ¬ (EndsWithValue words.now line.now v)) }
{
    let text = line.strip_prefix(words)?;
    value(text)
}

/// Returns the name of a waker after these words, if the line is these words and a name.
fn waker_after(words: &[u8], line: &[u8]) -> Option<u64>
    ensures some { IfSome result (EndsWithWaker words.now line.now) }
    ensures none { IfNone result ((w : ℕ) → ¬ (EndsWithWaker words.now line.now w)) }
{
    let text = line.strip_prefix(words)?;
    digits(text)
}

/// Reads a value: one or more decimal digits, and a minus before them if it is negative. Returns
/// `None` for any other text, and for a number that does not fit an `i64`.
fn value(text: &[u8]) -> Option<i64>
    ensures { SomeIff result (IsValue text.now) (number_of text.now) }
{
    match text {
        [b'-', rest @ ..] => 0_i64.checked_sub_unsigned(digits(rest)?),
        _ => i64::try_from(digits(text)?).ok(),
    }
}

/// Reads one or more decimal digits, which also name a waker. Returns `None` for any other text,
/// and for a number that does not fit a `u64`.
fn digits(text: &[u8]) -> Option<u64>
    ensures { SomeIff result (IsDigits text.now) (digits_value 10 text.now) }
{
    if text.is_empty() {
        return None;
    }
    let mut number: u64 = 0;
    for byte in text {
        if !byte.is_ascii_digit() {
            return None;
        }
        let digit = *byte - b'0';
        number = number.checked_mul(10)?.checked_add(digit as u64)?;
    }
    Some(number)
}
