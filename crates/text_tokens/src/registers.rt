//! The names of registers.

ghost use Rattle.std.specs.Prelude.{◌≡◌, ◌<◌, ◌∷◌, ◌||◌, length, IfSome};
ghost use Rattle.std.specs.Str.{bytes_eq};
ghost use Rattle.text_tokens.specs.Registers.{is_named, register_in, register_of};
ghost use Rattle.text_tokens.specs.Inside.Rows.{rows_view};

/// The decimal number of a register, and its other name.
struct Row(&'static str, &'static str);

/// The registers in the order of their numbers.
static REGISTERS: [Row; 32] = [
    Row("0", "v0"),
    Row("1", "t0"),
    Row("2", "t1"),
    Row("3", "t2"),
    Row("4", "t3"),
    Row("5", "t4"),
    Row("6", "t5"),
    Row("7", "t6"),
    Row("8", "t7"),
    Row("9", "s0"),
    Row("10", "s1"),
    Row("11", "s2"),
    Row("12", "s3"),
    Row("13", "s4"),
    Row("14", "s5"),
    Row("15", "s6"),
    Row("16", "a0"),
    Row("17", "a1"),
    Row("18", "a2"),
    Row("19", "a3"),
    Row("20", "a4"),
    Row("21", "a5"),
    Row("22", "t8"),
    Row("23", "t9"),
    Row("24", "t10"),
    Row("25", "t11"),
    Row("26", "ra"),
    Row("27", "t12"),
    Row("28", "at"),
    Row("29", "gp"),
    Row("30", "sp"),
    Row("31", "zero"),
];

/// Checks whether the lexeme is the number with `$` or `r` before it.
fn is_numbered(number: &[u8], lexeme: &[u8]) -> bool
    ensures { result ≡ (bytes_eq lexeme.now (36 ∷ number.now)
        || bytes_eq lexeme.now (114 ∷ number.now)) }
{
    match lexeme {
        [b'$' | b'r', rest @ ..] => rest == number,
        _ => false,
    }
}

/// Checks whether the lexeme is a name of the row's register.
fn is_named(row: &Row, lexeme: &[u8]) -> bool
    ensures { result ≡ is_named (row.now.0.now, row.now.1.now) lexeme.now }
{
    is_numbered(row.0.as_bytes(), lexeme) || lexeme == row.1.as_bytes()
}

/// Returns the index of the first row that the lexeme names, or None.
fn register_in(rows: &[Row], lexeme: &[u8]) -> Option<usize>
    ensures row { result ≡ register_in (rows_view rows.now) 0 lexeme.now }
    ensures within { IfSome result (λ i. i < length rows.now) }
{
    for i in 0..rows.len() {
        if is_named(&rows[i], lexeme) {
            return Some(i);
        }
    }
    None
}

/// Returns the index in the table of the register that the lexeme names, or None.
#[tactic(auto, unfolding(crate::specs::Registers::register_of, crate::specs::Registers::registers))]
fn register_row(lexeme: &[u8]) -> Option<usize>
    ensures value { result ≡ register_of lexeme.now }
    ensures within { IfSome result (λ i. i < 32) }
{
    register_in(&REGISTERS, lexeme)
}

/// Returns the number, 0 to 31, of the register that `lexeme` names, or None if it names none. A
/// register's names are `$` or `r` and the number without leading zeros, and the name of the
/// calling standard.
pub fn register(lexeme: &[u8]) -> Option<u8>
    ensures exact { result ≡ register_of lexeme.now }
    ensures within { IfSome result (λ r. r < 32) }
{
    match register_row(lexeme) {
        Some(number) => Some(number as u8),
        None => None,
    }
}
