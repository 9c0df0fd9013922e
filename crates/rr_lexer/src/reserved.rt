//! Reserved words.

ghost use Rattle.std.specs.Prelude.{◌≡◌};
ghost use Rattle.rr_lexer.specs.Words.{is_left_out};
ghost use Rattle.rr_lexer.specs.Scans.{keyword_among, keyword_from, keywords_of_size};

use crate::kind::Keyword;

fn keyword_of_two(word: &[u8]) -> Option<Keyword>
    ensures { result ≡ keyword_among word.now (keywords_of_size 2) }
{
    if word == b"do".as_slice() {
        Some(Keyword::Do)
    } else if word == b"if".as_slice() {
        Some(Keyword::If)
    } else if word == b"or".as_slice() {
        Some(Keyword::Or)
    } else {
        None
    }
}

fn keyword_of_three(word: &[u8]) -> Option<Keyword>
    ensures { result ≡ keyword_among word.now (keywords_of_size 3) }
{
    if word == b"and".as_slice() {
        Some(Keyword::And)
    } else if word == b"def".as_slice() {
        Some(Keyword::Def)
    } else if word == b"end".as_slice() {
        Some(Keyword::End)
    } else if word == b"nil".as_slice() {
        Some(Keyword::Nil)
    } else if word == b"not".as_slice() {
        Some(Keyword::Not)
    } else {
        None
    }
}

fn keyword_of_four(word: &[u8]) -> Option<Keyword>
    ensures { result ≡ keyword_among word.now (keywords_of_size 4) }
{
    if word == b"else".as_slice() {
        Some(Keyword::Else)
    } else if word == b"next".as_slice() {
        Some(Keyword::Next)
    } else if word == b"self".as_slice() {
        Some(Keyword::SelfWord)
    } else if word == b"then".as_slice() {
        Some(Keyword::Then)
    } else if word == b"true".as_slice() {
        Some(Keyword::True)
    } else {
        None
    }
}

fn keyword_of_five(word: &[u8]) -> Option<Keyword>
    ensures { result ≡ keyword_among word.now (keywords_of_size 5) }
{
    if word == b"begin".as_slice() {
        Some(Keyword::Begin)
    } else if word == b"break".as_slice() {
        Some(Keyword::Break)
    } else if word == b"class".as_slice() {
        Some(Keyword::Class)
    } else if word == b"elsif".as_slice() {
        Some(Keyword::Elsif)
    } else if word == b"false".as_slice() {
        Some(Keyword::False)
    } else if word == b"super".as_slice() {
        Some(Keyword::SuperWord)
    } else if word == b"until".as_slice() {
        Some(Keyword::Until)
    } else if word == b"while".as_slice() {
        Some(Keyword::While)
    } else if word == b"yield".as_slice() {
        Some(Keyword::Yield)
    } else {
        None
    }
}

fn keyword_of_six(word: &[u8]) -> Option<Keyword>
    ensures { result ≡ keyword_among word.now (keywords_of_size 6) }
{
    if word == b"ensure".as_slice() {
        Some(Keyword::Ensure)
    } else if word == b"rescue".as_slice() {
        Some(Keyword::Rescue)
    } else if word == b"return".as_slice() {
        Some(Keyword::Return)
    } else if word == b"unless".as_slice() {
        Some(Keyword::Unless)
    } else {
        None
    }
}

/// The keyword that a word is.
#[tactic(auto, unfolding(crate::specs::Scans::keyword_from))]
pub fn keyword_from(word: &[u8]) -> Option<Keyword>
    ensures { result ≡ keyword_from word.now }
{
    match word.len() {
        2 => keyword_of_two(word),
        3 => keyword_of_three(word),
        4 => keyword_of_four(word),
        5 => keyword_of_five(word),
        6 => keyword_of_six(word),
        _ => None,
    }
}

/// Whether a word is reserved in Ruby, and left out here.
pub fn is_left_out(word: &[u8]) -> bool
    ensures { result ≡ is_left_out word.now }
{
    word == b"__END__".as_slice()
        || word == b"__FILE__".as_slice()
        || word == b"__LINE__".as_slice()
        || word == b"__ENCODING__".as_slice()
        || word == b"BEGIN".as_slice()
        || word == b"END".as_slice()
        || word == b"alias".as_slice()
        || word == b"case".as_slice()
        || word == b"defined?".as_slice()
        || word == b"for".as_slice()
        || word == b"in".as_slice()
        || word == b"module".as_slice()
        || word == b"redo".as_slice()
        || word == b"retry".as_slice()
        || word == b"undef".as_slice()
        || word == b"when".as_slice()
}
