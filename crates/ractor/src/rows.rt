//! Worked examples as a table, one to a line: what it shows, the script, what it prints, its error line, its exit status.
//!
//! `^n` stands for LF, and `^d` for the byte 0x7F.

/// Scripts, with what the program leaves of each.
pub const ROWS: &str = "\
an empty file||||0
division floors|puts 7 / -2, 7 % -2^n|-4^n-1^n||0
a sum outside 64 bits|puts 9223372036854775807 + 1^n||integer out of 64 bits (RangeError)^n|1
output before an exception|puts 1; puts 2; puts nil - 1; puts 3^n|1^n2^n|undefined method '-' for nil (NoMethodError)^n|1
an open text|puts \"abc||ractor: syntax error, line 1, column 6: unterminated string^n|3
a byte that no source has|a = 1^nb = ^d||ractor: syntax error, line 2, column 5: encoding^n|3
a number out of range|puts 9223372036854775808^n||ractor: syntax error, line 1, column 6: number^n|3
a character that begins nothing|a = 1 & 2^n||ractor: syntax error, line 1, column 7: character^n|3
a word that is left out|alias a b^n||ractor: syntax error, line 1, column 1: left out^n|3
two values side by side|a = 1 2^n||ractor: syntax error, line 1, column 7: unexpected token^n|3
an open bracket|puts (1^n||ractor: syntax error, line 2, column 1: unexpected end^n|3";
