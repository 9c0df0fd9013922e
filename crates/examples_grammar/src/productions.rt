//! The grammar as a text, in Wirth's notation, and the steps that a reader of it takes.

use rr_lexer::{Kind, lex};
use std::alloc::{AllocError, Global};

/// The productions, each up to its `.`; what stands in `[ ]` may be left out, and what stands in `{ }` left out or repeated.
///
/// `'x'` is a token that is spelled so, and a word in capitals a token of that kind. The choices that go with the grammar
/// stand where they are made: `?x` says that a look at the present place holds, `~x` that it does not, and `+x` changes
/// what is known from there on.
const GRAMMAR: &str = "
program = [ sep ] [ row { sep row } ] [ sep ] .
row = class | def | stmt .
class = 'class' CONST ~class ~constant [ '<' path ?superclass ] +opened sep { member sep } 'end' .
member = def | NAME ?access SYMBOL { ',' SYMBOL } .
def = 'def' +method mname ( '(' [ names ] ')' | [ names ] ) sep body 'end' +leave .
mname = NAME [ ?tight '=' ] | '[' ?tight ']' [ ?tight '=' ]
  | '+' | '-' | '*' | '/' | '%' | '<<' | '==' | '<' | '<=' | '>' | '>=' | '<=>' .
names = parameter { ',' parameter } .
parameter = NAME ?plain +known .
body = stmts [ resc { resc } [ 'else' stmts ] ] [ 'ensure' stmts ] .
resc = 'rescue' [ path { ',' path } ] [ '=>' parameter ] then stmts .
path = CONST | CONST ?ractor ?tight '::' ?tight CONST .
sep = SEPARATOR { SEPARATOR } .
then = sep [ 'then' ] | 'then' .
stmts = [ sep ] [ stmt { sep stmt } ] [ sep ] .
stmt = ( masgn | expr ) { modifier } .
modifier = ( 'if' | 'unless' ) expr | ~begun ( 'while' | 'until' ) expr .
masgn = target ',' target { ',' target } '=' ( arg { ',' arg } | command ) .
expr = neg { ( 'and' | 'or' ) neg } .
neg = 'not' neg | casgn | command | arg .
casgn = target asgop ( casgn | command ) .
asgop = '=' | '+=' | '-=' | '*=' | '/=' | '%=' | '<<=' | '||=' | '&&=' .
variable = NAME ?plain +known | IVAR | GVAR | CONST ~method ~class ~opened +constant .
target = variable | primary '.' NAME | primary ?tight '[' +free arg ']' +back .
arg = target asgop arg | tern .
tern = or [ '?' arg ':' arg ] .
or = and { '||' and } .
and = eq { '&&' eq } .
eq = rel [ ( '==' | '!=' | '<=>' ) rel ] .
rel = shift { ( '<' | '<=' | '>' | '>=' ) shift } .
shift = sum { '<<' sum } .
sum = prod { ( '+' | '-' ) prod } .
prod = minus { ( '*' | '/' | '%' ) minus } .
minus = '-' ~number minus | bang .
bang = '!' bang | primary .
command = NAME ~local ?operands +hold cargs +back [ doblock ] | primary '.' NAME ?operands +hold cargs +back [ doblock ]
  | jump ?value cargs | passing ?operands cargs .
jump = 'return' | ( 'break' | 'next' ) ?loop .
passing = ( 'yield' | 'super' ) ?method .
cargs = list | command .
list = item { ',' item } { ',' pair } | pair { ',' pair } .
args = list [ ',' ] .
item = [ '*' ] arg .
pair = LABEL arg | arg '=>' arg .
primary = operand { suffix } .
suffix = '.' NAME ( ~operands | given ) [ block ] | ?tight '[' +free arg ']' +back .
given = ?tight '(' +free [ args ] ')' +back .
operand = INT | '-' ?number INT | STRING | SYMBOL | path | IVAR | GVAR
  | HEAD +free stmts { MIDDLE stmts } TAIL +back
  | 'self' | 'nil' | 'true' | 'false'
  | NAME ?local | NAME ~local ~operands | NAME given [ block ] | NAME block
  | jump ~value | passing ~operands | passing given
  | '(' +free stmts ')' +back | '[' +free [ args ] ']' +back
  | '{' +free [ pair { ',' pair } [ ',' ] ] '}' +back
  | 'begin' +free body 'end' +back +begun
  | 'if' +free expr then stmts { 'elsif' expr then stmts } [ 'else' stmts ] 'end' +back
  | 'unless' +free expr then stmts [ 'else' stmts ] 'end' +back
  | ( 'while' | 'until' ) +loop expr ( 'do' | sep ) +anew stmts 'end' +back .
block = '{' +block [ '|' names '|' ] stmts '}' +leave | doblock .
doblock = ?do 'do' +block [ '|' names '|' ] body 'end' +leave .
";

/// What is asked of a place.
#[derive(Clone, Copy)]
pub enum Look {
    /// The next token stands directly behind the last one.
    Tight,
    /// The next token is an integer that stands directly behind the last one.
    Number,
    /// A blank and then a token that begins an operand come next.
    Operands,
    /// What a jump takes as its value comes next.
    Value,
    /// The last token is a name without `?` and `!`.
    Plain,
    /// The last token is a variable.
    Local,
    /// The last token is `Ractor`.
    Ractor,
    /// The last token is the name of a built-in class.
    Class,
    /// The last token is the name of a class that was opened.
    Opened,
    /// The last token is a constant that was set.
    Constant,
    /// The last tokens are a path that the class which is opened can have as its superclass.
    Superclass,
    /// The last token is a word before attributes.
    Access,
    InLoop,
    InMethod,
    /// A call takes a `do` block here.
    TakesDo,
    /// The last token ends a `begin`.
    Begun,
}

/// How what is known changes.
#[derive(Clone, Copy)]
pub enum Act {
    /// A scope begins that sees nothing outside.
    Method,
    /// A scope begins that sees what is outside.
    Block,
    /// The condition of a loop begins, whose `do` is the loop's.
    Loop,
    /// Arguments begin that leave a `do` to their command.
    Hold,
    /// What has a closing token begins.
    Free,
    /// The last scope ends, and what was known before it is known again.
    Leave,
    /// What began last ends; its variables stay known.
    Back,
    /// The statements of a loop begin.
    Anew,
    /// The last token is a variable from here on.
    Known,
    /// The class whose head was read is opened.
    Opened,
    /// The last token is a constant that is set.
    Constant,
    /// A `begin` ended.
    Begun,
}

/// What stands at a place of the text.
#[derive(Clone, Copy)]
pub enum Step {
    /// `=` or `(`: one of the ways from here on.
    Choose,
    /// `[` or `{`: one of the ways from here on, or none.
    Try,
    Bar,
    /// `)` or `]`
    Close,
    /// `}`
    Repeat,
    /// `.`
    End,
    /// A production, by the place of its `=`.
    Production(usize),
    Token(Kind),
    /// A look that has to hold, or not to.
    Look(Look, bool),
    Change(Act),
    /// No word of the notation.
    Other,
}

/// The words that stand for themselves.
const WORDS: [(&str, Step); 54] = [
    ("=", Step::Choose),
    ("(", Step::Choose),
    ("[", Step::Try),
    ("{", Step::Try),
    ("|", Step::Bar),
    (")", Step::Close),
    ("]", Step::Close),
    ("}", Step::Repeat),
    (".", Step::End),
    ("NAME", Step::Token(Kind::Name)),
    ("CONST", Step::Token(Kind::Constant)),
    ("IVAR", Step::Token(Kind::InstanceVariable)),
    ("GVAR", Step::Token(Kind::GlobalVariable)),
    ("INT", Step::Token(Kind::Int)),
    ("STRING", Step::Token(Kind::Text)),
    ("SYMBOL", Step::Token(Kind::Symbol)),
    ("LABEL", Step::Token(Kind::Label)),
    ("HEAD", Step::Token(Kind::Head)),
    ("MIDDLE", Step::Token(Kind::Middle)),
    ("TAIL", Step::Token(Kind::Tail)),
    ("SEPARATOR", Step::Token(Kind::LineEnd)),
    ("?tight", Step::Look(Look::Tight, true)),
    ("?number", Step::Look(Look::Number, true)),
    ("~number", Step::Look(Look::Number, false)),
    ("?operands", Step::Look(Look::Operands, true)),
    ("~operands", Step::Look(Look::Operands, false)),
    ("?value", Step::Look(Look::Value, true)),
    ("~value", Step::Look(Look::Value, false)),
    ("?plain", Step::Look(Look::Plain, true)),
    ("?local", Step::Look(Look::Local, true)),
    ("~local", Step::Look(Look::Local, false)),
    ("?ractor", Step::Look(Look::Ractor, true)),
    ("~class", Step::Look(Look::Class, false)),
    ("~opened", Step::Look(Look::Opened, false)),
    ("~constant", Step::Look(Look::Constant, false)),
    ("?superclass", Step::Look(Look::Superclass, true)),
    ("?access", Step::Look(Look::Access, true)),
    ("?loop", Step::Look(Look::InLoop, true)),
    ("?method", Step::Look(Look::InMethod, true)),
    ("~method", Step::Look(Look::InMethod, false)),
    ("?do", Step::Look(Look::TakesDo, true)),
    ("~begun", Step::Look(Look::Begun, false)),
    ("+method", Step::Change(Act::Method)),
    ("+block", Step::Change(Act::Block)),
    ("+loop", Step::Change(Act::Loop)),
    ("+hold", Step::Change(Act::Hold)),
    ("+free", Step::Change(Act::Free)),
    ("+leave", Step::Change(Act::Leave)),
    ("+back", Step::Change(Act::Back)),
    ("+anew", Step::Change(Act::Anew)),
    ("+known", Step::Change(Act::Known)),
    ("+opened", Step::Change(Act::Opened)),
    ("+constant", Step::Change(Act::Constant)),
    ("+begun", Step::Change(Act::Begun)),
];

/// A grammar as steps. Of each `=`, bracket and `|` there is the place of the next `|` of the same choice, or of what ends
/// it, and of what ends it the place of what began it.
#[derive(Drop)]
pub struct Grammar {
    pub steps: Vec<Step>,
    pub next: Vec<usize>,
}

/// The kind of the token that stands between quotes.
fn spelled(alloc: Global, word: &str) -> Option<Kind> {
    let (_, behind) = word.split_once("'")?;
    let (spelled, _) = behind.split_once("'")?;
    let tokens = lex(alloc, spelled.as_bytes()).ok()?;
    let token = tokens.first()?;
    Some(token.kind)
}

/// The place of the `=` behind the name of a production.
fn production(words: &[&'static str], name: &str) -> Option<usize> {
    let mut last = "";
    for (place, word) in words.iter().enumerate() {
        if last == name && *word == "=" {
            return Some(place);
        }
        last = *word;
    }
    None
}

/// The step of a word.
fn step_of(alloc: Global, words: &[&'static str], word: &str) -> Step {
    for (name, step) in &WORDS {
        if *name == word {
            return *step;
        }
    }
    if let Some(place) = production(words, word) {
        return Step::Production(place);
    }
    match spelled(alloc, word) {
        Some(kind) => Step::Token(kind),
        None => Step::Other,
    }
}

fn put(next: &mut [usize], place: usize, value: usize) {
    if let Some(old) = next.get_mut(place) {
        *old = value;
    }
}

/// Where each choice goes on.
fn partners(alloc: Global, steps: &[Step]) -> Result<Vec<usize>, AllocError> {
    let mut next = vec![in alloc; 0; steps.len()]?;
    // What was begun last, and its last `|`.
    let mut open: Vec<(usize, usize)> = Vec::new(alloc);
    for (place, step) in steps.iter().enumerate() {
        match step {
            Step::Choose | Step::Try => open.push((place, place))?,
            Step::Bar => {
                if let Some((begun, last)) = open.pop() {
                    put(next.as_mut_slice(), last, place);
                    open.push((begun, place))?;
                }
            }
            Step::Close | Step::Repeat | Step::End => {
                if let Some((begun, last)) = open.pop() {
                    put(next.as_mut_slice(), last, place);
                    put(next.as_mut_slice(), place, begun);
                }
            }
            _ => {}
        }
    }
    Ok(next)
}

impl Grammar {
    /// The grammar of the language, whose first production begins at place 1.
    pub fn new(alloc: Global) -> Result<Grammar, AllocError> {
        let mut words = Vec::new(alloc);
        for word in GRAMMAR.split_whitespace() {
            words.push(word)?;
        }
        let mut steps = Vec::new(alloc);
        for word in &words {
            steps.push(step_of(alloc, words.as_slice(), *word))?;
        }
        let next = partners(alloc, steps.as_slice())?;
        Ok(Grammar { steps, next })
    }
}
