// A line of algebra over the lists of an album, such as `(0+1)*D 2-3`: what a call refuses in it, and its program, which has the operands
// before their operator.
// expression, term and factor call each other. With each such call 3 times the bytes left plus the rank of what is read falls: a factor has
// rank 0, a term 1, an expression 2. So at most 3 * 256 + 3 of these calls are open at a time.
#![tactic(auto)]

ghost use Rattle.std.specs.Prelude.{◌≡◌, ◌≤◌, ◌<◌, length};
ghost use Rattle.refusal.specs.Limits.{max_line};
ghost use Rattle.refusal.specs.Lowest.{lowest};
ghost use Rattle.lines.specs.Grammar.{sign_of, open_behind, deepest};
ghost use Rattle.lines.specs.Program.{byte_of, operator_at};
ghost use Rattle.lines.specs.Lines.{line_refusals, read_outcome, judged_outcome, ProgramOf};
ghost use Rattle.lines.specs.Internal.{Skipped, Begins, SumSign, ProductSign, Room, Wrote, said_expression, said_term, said_factor};

use refusal::Refusal;

// The operators of a program.
#[derive(Clone, Copy, Debug, PartialEq, Eq)]
pub enum Operator {
    Add,
    Subtract,
    Multiply,
    Derive,
}

// The first byte of a program that is an operator. Below it stand the numbers of lists, which have at most two digits.
pub const FIRST_OPERATOR: u8 = 100;

// The byte of an operator.
impl From<Operator> for u8 {
    ghost from_gives = { λ operator x. x ≡ byte_of operator };

    fn from(operator: Operator) -> u8 {
        match operator {
            Operator::Add => 100,
            Operator::Subtract => 101,
            Operator::Multiply => 102,
            Operator::Derive => 103,
        }
    }
}

// The operator that a byte is; any other byte is handed back, in a program as the number of a list.
impl TryFrom<u8> for Operator {
    type Error = u8;

    ghost try_from_gives = { λ x result. result ≡ operator_at x };

    fn try_from(x: u8) -> Result<Operator, u8> {
        match x {
            100 => Ok(Operator::Add),
            101 => Ok(Operator::Subtract),
            102 => Ok(Operator::Multiply),
            103 => Ok(Operator::Derive),
            _ => Err(x),
        }
    }
}

// A token of a line. A byte that the grammar has no use for is a token of its own.
#[derive(Clone, Copy, Debug, PartialEq, Eq)]
pub enum Token {
    Number(u8),
    Plus,
    Minus,
    Times,
    Derive,
    Open,
    Close,
    Wrong,
}

// A line that is read from a place on, and its program, of which so many bytes are written. That there is room for what is still to be read is
// required by the methods, and no ghost field: each of their writes would have to show it again.
#[derive(Drop)]
struct Parser<'a> {
    line: &'a [u8],
    at: usize,
    code: &'a mut [u8],
    filled: usize,
}

// Reads a line. Its program goes to the start of `code`; what follows there, and all of it where the line is refused, is scratch. A slice
// of fewer bytes than the longest line has is refused first.
pub fn read_line(line: &[u8], code: &mut [u8]) -> Result<usize, Refusal>
    ensures refusal { judged_outcome result ≡ read_outcome line.now code.old }
    ensures program { ProgramOf line.now code.new result }
{
    if code.len() < refusal::MAX_LINE {
        return Err(Refusal::Misfit);
    }
    read_into(line, code)
}

// The same where there is room for every program.
fn read_into(line: &[u8], code: &mut [u8]) -> Result<usize, Refusal>
    requires { max_line ≤ length code.old }
    ensures refusal { judged_outcome result ≡ lowest (line_refusals line.now) }
    ensures program { ProgramOf line.now code.new result }
{
    if refusal::MAX_LINE < line.len() {
        return Err(Refusal::Line);
    }
    let mut parser = Parser {
        line,
        at: 0,
        code,
        filled: 0,
    };
    parser.expression().ok_or(Refusal::Line)?;
    if token_at(line, parser.at).is_some() {
        return Err(Refusal::Line);
    }
    if refusal::MAX_OPEN < nesting(line) {
        return Err(Refusal::Nesting);
    }
    Ok(parser.filled)
}

// How many parentheses are open behind a byte, of so many open before it.
#[tactic(auto, unfolding(crate::specs::Grammar::open_behind))]
fn open_behind(before: usize, b: u8) -> usize
    requires { before < max_line }
    ensures { result ≡ open_behind before b }
{
    match b {
        b'(' => before + 1,
        b')' => before.saturating_sub(1),
        _ => before,
    }
}

// The most parentheses that are open together.
fn nesting(line: &[u8]) -> usize
    requires { length line.now ≤ max_line }
    ensures { result ≡ deepest 0 line.now }
{
    let mut most: usize = 0;
    let mut depth = 0;
    for &b in line {
        most = most.max(depth);
        depth = open_behind(depth, b);
    }
    most.max(depth)
}

// The token of a byte that is no digit and no space.
#[tactic(auto, unfolding(crate::specs::Grammar::sign_of))]
fn sign_of(b: u8) -> Token
    ensures { result ≡ sign_of b }
{
    match b {
        b'+' => Token::Plus,
        b'-' => Token::Minus,
        b'*' => Token::Times,
        b'D' => Token::Derive,
        b'(' => Token::Open,
        b')' => Token::Close,
        _ => Token::Wrong,
    }
}

// The next place that is no space.
fn skip_spaces(line: &[u8], at: usize) -> usize
    requires { at ≤ length line.now }
    ensures { Skipped line.now at result }
{
    match line[at..].iter().position(|&b| b != b' ') {
        Some(spaces) => at + spaces,
        None => line.len(),
    }
}

// The token that comes next, and the place behind it. A number takes at most two digits: a third begins another number.
fn token_at(line: &[u8], at: usize) -> Option<(Token, usize)>
    requires { at ≤ length line.now }
    ensures { Begins line.now at result }
{
    let i = skip_spaces(line, at);
    let a = *line.get(i)?;
    if !a.is_ascii_digit() {
        return Some((sign_of(a), i + 1));
    }
    let digit = a - b'0';
    if let Some(&b) = line.get(i + 1) {
        if b.is_ascii_digit() {
            return Some((Token::Number(10 * digit + (b - b'0')), i + 2));
        }
    }
    Some((Token::Number(digit), i + 1))
}

// The + or - that comes next, and the place behind it.
fn sum_sign(line: &[u8], at: usize) -> Option<(Operator, usize)>
    requires { at ≤ length line.now }
    ensures { SumSign line.now at result }
{
    match token_at(line, at)? {
        (Token::Plus, after) => Some((Operator::Add, after)),
        (Token::Minus, after) => Some((Operator::Subtract, after)),
        _ => None,
    }
}

// The place behind the * that comes next.
fn product_sign(line: &[u8], at: usize) -> Option<usize>
    requires { at ≤ length line.now }
    ensures { ProductSign line.now at result }
{
    match token_at(line, at)? {
        (Token::Times, after) => Some(after),
        _ => None,
    }
}

impl Parser<'_> {
    // A byte more of the program.
    fn write(&mut self, x: u8)
        requires { self.old.filled < length self.old.code.now }
        ensures { Wrote x self.old self.new }
    {
        self.code[self.filled] = x;
        self.filled += 1;
    }

    // Reads an expression: terms, with + or - between them. None where no expression begins.
    #[cycle(expression_factor_term)]
    fn expression(&mut self) -> Option<()>
        requires { Room self.old }
        ensures { said_expression self.old self.new result }
    {
        self.term()?;
        while let Some((operator, after)) = sum_sign(self.line, self.at) {
            self.at = after;
            self.term()?;
            self.write(u8::from(operator));
        }
        Some(())
    }

    // The same of a term: factors, with * between them.
    #[cycle(expression_factor_term)]
    fn term(&mut self) -> Option<()>
        requires { Room self.old }
        ensures { said_term self.old self.new result }
    {
        self.factor()?;
        while let Some(after) = product_sign(self.line, self.at) {
            self.at = after;
            self.factor()?;
            self.write(u8::from(Operator::Multiply));
        }
        Some(())
    }

    // The same of a factor: a number, D and a factor, or an expression in parentheses.
    #[cycle(expression_factor_term)]
    fn factor(&mut self) -> Option<()>
        requires { Room self.old }
        ensures { said_factor self.old self.new result }
    {
        let (token, after) = token_at(self.line, self.at)?;
        self.at = after;
        match token {
            Token::Number(list) => self.write(list),
            Token::Derive => {
                self.factor()?;
                self.write(u8::from(Operator::Derive));
            }
            Token::Open => {
                self.expression()?;
                let (Token::Close, beyond) = token_at(self.line, self.at)? else {
                    return None;
                };
                self.at = beyond;
            }
            _ => return None,
        }
        Some(())
    }
}
