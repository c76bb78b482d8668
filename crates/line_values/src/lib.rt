// The value of a line of algebra over the lists of an album. The line's program (crate `lines`) is run on a stack of lists, which lies in
// one array: the lists' words one behind the other, the lowest list first. What an operation makes of the lists on top takes their place.
#![tactic(auto)]

ghost use Rattle.std.specs.Prelude.{◌≡◌, ℕ, List, ◌∷◌, ◌+◌, ◌≤◌, ◌<◌, length, Ok};
ghost use Rattle.refusal.specs.Limits.{max_line, max_words};
ghost use Rattle.refusal.specs.Lowest.{lowest};
ghost use Rattle.field.specs.Fields.{modulus, field_at, longest};
ghost use Rattle.lists.specs.Padded.{padded};
ghost use Rattle.lists.specs.Refused.{IsList};
ghost use Rattle.album_layout.specs.Layout.{lists_of};
ghost use Rattle.album_layout.specs.Internal.{Passed};
ghost use Rattle.album_reader.specs.Calls.{listed_reply};
ghost use Rattle.lines.specs.Lines.{judged_outcome, ProgramOf};
ghost use Rattle.lines.specs.Program.{byte_of, first_operator};
ghost use Rattle.line_values.specs.Values.{multiplied, derived};
ghost use Rattle.line_values.specs.Calls.{line_rows, line_answer, line_written};
ghost use Rattle.line_values.specs.Internal.{operation, unary, binary, StackedIn, Empty, Ready, Lying, popped, Pushed, Came, Stepped, Ran, lacks_one, lacks_byte, Runs, ValueSo};
ghost use Rattle.line_values.specs.Internal as machine;

use lines::Operator;
use lists::NaiveDegree;
use refusal::Refusal;

// The most lists on the stack: three, and two for each parenthesis that is open.
const MAX_HEIGHT: usize = 2 * refusal::MAX_OPEN + 3;

const STACK_WORDS: usize = MAX_HEIGHT * refusal::MAX_WORDS;

// Lists over a field: their words one behind the other, the lowest list first, and the number of words of each. That lists lie there is
// required by the methods, and no ghost field: a list's words and its size are written one after the other, and a ghost field beside a `&mut`
// has to hold at each write.
#[derive(Drop)]
struct Stack<'a> {
    field: u8,
    words: &'a mut [u16],
    sizes: &'a mut [usize],
    top: usize,
    filled: usize,
}

// The value of a line over an album, zeros after it; the call is that over field 0.
pub fn line_value_over(
    field: u8,
    album: &[u8],
    line: &[u8],
    out: &mut [u16],
) -> Result<NaiveDegree, Refusal>
    ensures answer { listed_reply result ≡ line_answer field album.now line.now out.old }
    ensures writes { out.new ≡ line_written field album.now line.now out.old }
{
    let mut code = [0u8; refusal::MAX_LINE];
    let n = judge(field, album, line, out, &mut code)?;
    value_into(field, album, &code[..n], out)
}

// What the call refuses by its inputs alone; the line's program goes to `code`. 12, 13 and 3 go between an album's 2 and its 5, so that the
// layout is judged first, and the album with its words after the line.
fn judge(
    field: u8,
    album: &[u8],
    line: &[u8],
    out: &[u16],
    code: &mut [u8],
) -> Result<usize, Refusal>
    requires { max_line ≤ length code.old }
    ensures result_value { judged_outcome result ≡ lowest (line_rows (modulus field) (longest field) album.now line.now out.now) }
    ensures program_of { ProgramOf line.now code.new result }
{
    album_layout::judge_layout(album)?;
    let n = lines::read_line(line, code)?;
    if lacks_list(words::byte_at(album, 0), &code[..n]) {
        return Err(Refusal::Index);
    }
    album_layout::judge_album(field, album)?;
    if out.len() != field::longest_of(field) {
        return Err(Refusal::Misfit);
    }
    Ok(n)
}

// Whether a byte of a program is an operand that an album of so many lists lacks.
#[tactic(auto, unfolding(crate::specs::Internal::lacks_one))]
fn lacks(lists: usize, x: u8) -> bool
    ensures { result ≡ lacks_one lists x }
{
    x < lines::FIRST_OPERATOR && lists <= usize::from(x)
}

// Whether the program has such an operand.
fn lacks_list(lists: usize, code: &[u8]) -> bool
    ensures { result ≡ lacks_byte lists code.now }
{
    code.iter().any(|&x| lacks(lists, x))
}

// The value of the program's tree, zeros after it.
fn value_into(field: u8, album: &[u8], code: &[u8], out: &mut [u16]) -> Result<NaiveDegree, Refusal>
    requires { (Passed (modulus field) album.now) × (Runs album.now code.now) × (length out.old ≡ longest field) }
    ensures { ValueSo field album.now code.now out.old out.new (listed_reply result) }
{
    let mut words = [0u16; STACK_WORDS];
    let mut sizes = [0usize; MAX_HEIGHT];
    let mut stack = Stack {
        field,
        words: &mut words,
        sizes: &mut sizes,
        top: 0,
        filled: 0,
    };
    stack.run(album, code)?;
    let n = stack.filled;
    pad(&stack.words[..n], out);
    Ok(NaiveDegree(n - 1))
}

// A list and zeros after it.
fn pad(list: &[u16], out: &mut [u16])
    requires { length list.now ≤ length out.old }
    ensures { out.new ≡ padded (length out.old) list.now }
{
    let (words, zeros) = out.split_at_mut(list.len());
    words.copy_from_slice(list);
    zeros.fill(0);
}

impl Stack<'_> {
    // Runs the program; a refusal is that of the first operation that refuses.
    fn run(&mut self, album: &[u8], code: &[u8]) -> Result<(), Refusal>
        requires passed { (Passed (modulus self.old.field) album.now) × (Runs album.now code.now) }
        requires empty { Empty self.old }
        ensures { Ran album.now code.now self.old self.new result }
    {
        let mut room = [0u16; refusal::MAX_WORDS];
        for &x in code {
            self.step(album, x, &mut room)?;
        }
        Ok(())
    }

    // One byte of the program. What an operation makes goes to `room` first.
    fn step(&mut self, album: &[u8], x: u8, room: &mut [u16]) -> Result<(), Refusal>
        requires ready { Ready album.now x self.old }
        requires room_len { length room.old ≡ max_words }
        ensures { Stepped (machine.step (field_at self.old.field) (longest self.old.field) (lists_of album.now) x) self.old self.new result }
    {
        match Operator::try_from(x) {
            Ok(Operator::Derive) => self.derive_top(room),
            Ok(operator) => return self.join_top(operator, room),
            Err(list) => self.push_list(album, list),
        }
        Ok(())
    }

    // A list of the album goes on top.
    fn push_list(&mut self, album: &[u8], list: u8)
        requires { Ready album.now list self.old × (list < first_operator) }
        ensures { Stepped (machine.step (field_at self.old.field) (longest self.old.field) (lists_of album.now) list) self.old self.new (Ok tt) }
    {
        let n = album_reader::read_at(
            album,
            usize::from(list),
            &mut self.words[self.filled..self.filled + refusal::MAX_WORDS],
        );
        self.sizes[self.top] = n;
        self.top += 1;
        self.filled += n;
    }

    // A list goes on top.
    fn push(&mut self, list: &[u16])
        requires words { self.old.filled + length list.now ≤ length self.old.words.now }
        requires sizes { self.old.top < length self.old.sizes.now }
        ensures { Pushed list.now self.old self.new }
    {
        let from = self.filled;
        let end = from + list.len();
        self.words[from..end].copy_from_slice(list);
        self.sizes[self.top] = list.len();
        self.top += 1;
        self.filled = end;
    }

    // The list on top goes.
    fn pop(&mut self)
        requires { Lying self.old × (1 ≤ self.old.top) }
        ensures { self.new ≡ popped self.old }
    {
        self.top -= 1;
        self.filled -= self.sizes[self.top];
    }

    // The derivative of the list on top takes its place.
    fn derive_top(&mut self, room: &mut [u16])
        requires lying { Lying self.old × (1 ≤ self.old.top) }
        requires room_len { length room.old ≡ max_words }
        ensures { Stepped (unary (derived (field_at self.old.field) (longest self.old.field))) self.old self.new (Ok tt) }
    {
        let n = self.derivative_of_top(room);
        self.pop();
        self.push(&room[..n]);
    }

    // What an operator makes of the two lists on top takes their place.
    fn join_top(&mut self, operator: Operator, room: &mut [u16]) -> Result<(), Refusal>
        requires lying { Lying self.old × (2 ≤ self.old.top) }
        requires room_len { length room.old ≡ max_words }
        ensures { Stepped (binary (operation (field_at self.old.field) (longest self.old.field) (byte_of operator))) self.old self.new result }
    {
        let n = self.operate_on_top(operator, room)?;
        self.pop();
        self.pop();
        self.push(&room[..n]);
        Ok(())
    }

    // The derivative of the list on top, in front of `room`.
    fn derivative_of_top(&self, room: &mut [u16]) -> usize
        requires lying { Lying self.now × (1 ≤ self.now.top) }
        requires room_len { length room.old ≡ max_words }
        ensures { (a : List ℕ) (s : machine.Stack) → StackedIn self.now (a ∷ s)
            → Came (modulus self.now.field) (longest self.now.field) (derived (field_at self.now.field) (longest self.now.field) a) room.new (Ok result) }
    {
        let k = self.sizes[self.top - 1];
        let from = self.filled - k;
        let n = words::larger(k - 1, 1);
        // No call refuses a list of the stack.
        let _ = list_derivative::derivative_over(
            self.field,
            &self.words[from..self.filled],
            &mut room[..n],
        );
        n
    }

    // The two lists on top by an operator, in front of `room`.
    fn operate_on_top(&self, operator: Operator, room: &mut [u16]) -> Result<usize, Refusal>
        requires lying { Lying self.now × (2 ≤ self.now.top) }
        requires room_len { length room.old ≡ max_words }
        ensures { (b a : List ℕ) (s : machine.Stack) → StackedIn self.now (b ∷ (a ∷ s))
            → Came (modulus self.now.field) (longest self.now.field) (operation (field_at self.now.field) (longest self.now.field) (byte_of operator) a b) room.new result }
    {
        let between = self.filled - self.sizes[self.top - 1];
        let from = between - self.sizes[self.top - 2];
        operate(
            self.field,
            operator,
            &self.words[from..between],
            &self.words[between..self.filled],
            room,
        )
    }
}

// a and b by an operator, in front of `room`. No call refuses them, but a product of too many words.
fn operate(
    field: u8,
    operator: Operator,
    a: &[u16],
    b: &[u16],
    room: &mut [u16],
) -> Result<usize, Refusal>
    requires { (IsList (modulus field) (longest field) a.now) × (IsList (modulus field) (longest field) b.now) × (length room.old ≡ max_words) }
    ensures { Came (modulus field) (longest field) (operation (field_at field) (longest field) (byte_of operator) a.now b.now) room.new result }
{
    let n = words::larger(a.len(), b.len());
    match operator {
        Operator::Add => {
            let _ = list_sum::sum_over(field, a, b, &mut room[..n]);
            Ok(n)
        }
        Operator::Subtract => {
            let _ = list_sum::difference_over(field, a, b, &mut room[..n]);
            Ok(n)
        }
        _ => multiply(field, a, b, room),
    }
}

// The product of a and b, in front of `room`.
fn multiply(field: u8, a: &[u16], b: &[u16], room: &mut [u16]) -> Result<usize, Refusal>
    requires { (IsList (modulus field) (longest field) a.now) × (IsList (modulus field) (longest field) b.now) × (length room.old ≡ max_words) }
    ensures { Came (modulus field) (longest field) (multiplied (field_at field) (longest field) a.now b.now) room.new result }
{
    let n = a.len() + b.len() - 1;
    if field::longest_of(field) < n {
        return Err(Refusal::Over);
    }
    let _ = list_product::product_over(field, a, b, &mut room[..n]);
    Ok(n)
}
