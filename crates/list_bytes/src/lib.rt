// Product, division and GCD of two lists that are bytes, two to a word, low byte first, as are the results. Each function judges its bytes
// and works by way of words. It returns a number, since a C host calls it: the refusal's, 0 when it completes.
#![tactic(auto)]

ghost use Rattle.std.specs.Prelude.{◌≡◌, false, cond, ◌||◌, [], ◌∷◌, ◌≤◌, ◌<◌, length, Ok, Err};
ghost use Rattle.refusal.specs.Limits.{max_words};
ghost use Rattle.refusal.specs.Refusal.{outcome_number};
ghost use Rattle.refusal.specs.declared.Refusal.TheVariants.{Length};
ghost use Rattle.field.specs.Fields.{longest};
ghost use Rattle.lists.specs.Bytes.{word_count, bytes_of};
ghost use Rattle.list_bytes.specs.Calls.{host_product_answer, host_product_written};
ghost use Rattle.list_bytes.specs.Calls.{host_division_answer, host_quotient_written, host_remainder_written};
ghost use Rattle.list_bytes.specs.Calls.{host_gcd_answer, host_gcd_written, host_values_written};
ghost use Rattle.list_bytes.specs.Internal.{bad_list, room_of, gcd_room};

use list_gcd::Gcd;
use refusal::Refusal;

// The bytes of the answer of a GCD: three words.
const ANSWER_BYTES: usize = 6;

// The product of f and g.
pub fn product_over(field: u8, f: &[u8], g: &[u8], out: &mut [u8]) -> u8
    ensures answer { result ≡ host_product_answer field f.now g.now out.old }
    ensures writes { out.new ≡ host_product_written field f.now g.now out.old }
{
    refusal::outcome_number(product_bytes(field, f, g, out))
}

// g divided by f: the quotient goes to q, the remainder to r.
pub fn divide_over(field: u8, g: &[u8], f: &[u8], q: &mut [u8], r: &mut [u8]) -> u8
    ensures answer { result ≡ host_division_answer field g.now f.now q.old r.old }
    ensures quotient { q.new ≡ host_quotient_written field g.now f.now q.old r.old }
    ensures remainder { r.new ≡ host_remainder_written field g.now f.now q.old r.old }
{
    refusal::outcome_number(divide_bytes(field, g, f, q, r))
}

// The GCD of f and g: h, as many words as the longest list has; the answer, three words: w, c and rounds.
pub fn gcd_over(field: u8, f: &[u8], g: &[u8], h: &mut [u8], answer: &mut [u8]) -> u8
    ensures answer { result ≡ host_gcd_answer field f.now g.now h.old answer.old }
    ensures writes { h.new ≡ host_gcd_written field f.now g.now h.old answer.old }
    ensures values { answer.new ≡ host_values_written field f.now g.now h.old answer.old }
{
    refusal::outcome_number(gcd_bytes(field, f, g, h, answer))
}

// What a call refuses in its two lists before it reads a word.
fn judge_bytes(field: u8, f: &[u8], g: &[u8]) -> Result<(), Refusal>
    ensures { result ≡ cond (bad_list (longest field) f.now || bad_list (longest field) g.now) (Err Length) (Ok tt) }
{
    if bad_list(field, f) || bad_list(field, g) {
        return Err(Refusal::Length);
    }
    Ok(())
}

// Whether some bytes are no list: odd, no words, or more words than a list may have.
#[tactic(auto, using(crate::proofs::Fits::bad_is))]
fn bad_list(field: u8, list: &[u8]) -> bool
    ensures { result ≡ bad_list (longest field) list.now }
{
    let words = list.len() / 2;
    list.len() % 2 == 1 || words == 0 || field::longest_of(field) < words
}

// The number of words of a result slice, or `never`, a number that does not fit, where it is no result: odd, or more words than a list may
// have.
#[tactic(auto, unfolding(crate::specs::Internal::room_of, lists::specs::Bytes::odd_bytes, lists::specs::Bytes::word_count))]
fn room(field: u8, res: &[u8], never: usize) -> usize
    ensures { result ≡ room_of (longest field) never res.now }
{
    let words = res.len() / 2;
    if res.len() % 2 == 1 || field::longest_of(field) < words {
        return never;
    }
    words
}

// The words handed to the GCD for h: those of the longest list, or 0 where h or the answer does not fit.
#[tactic(auto, unfolding(crate::specs::Internal::gcd_room, field::specs::Fields::longest))]
fn gcd_room(field: u8, h: &[u8], answer: &[u8]) -> usize
    ensures { result ≡ gcd_room (longest field) h.now answer.now }
{
    let n = field::longest_of(field);
    if h.len() != 2 * n || answer.len() != ANSWER_BYTES {
        return 0;
    }
    n
}

// The product by way of words: the lists in a and b, the result in c.
fn product_in(
    field: u8,
    f: &[u8],
    g: &[u8],
    a: &mut [u16],
    b: &mut [u16],
    c: &mut [u16],
    out: &mut [u8],
) -> Result<(), Refusal>
    requires f_value { (bad_list (longest field) f.now ≡ false) × (bad_list (longest field) g.now ≡ false) }
    requires a_len { (length a.old ≡ word_count f.now) × (length b.old ≡ word_count g.now)
        × (length c.old ≡ room_of (longest field) 0 out.old) }
    ensures value { outcome_number result ≡ host_product_answer field f.now g.now out.old }
    ensures out_after { out.new ≡ host_product_written field f.now g.now out.old }
{
    words::read_words(f, a);
    words::read_words(g, b);
    list_product::product_over(field, a, b, c)?;
    words::write_words(c, out);
    Ok(())
}

// The product of two lists that pass, with a result of k words, in arrays of N words, which are filled with zeros.
#[tactic(auto, unfolding(lists::specs::Bytes::word_count))]
fn product_sized<const N: usize>(
    field: u8,
    f: &[u8],
    g: &[u8],
    k: usize,
    out: &mut [u8],
) -> Result<(), Refusal>
    requires f_value { (bad_list (longest field) f.now ≡ false) × (bad_list (longest field) g.now ≡ false) }
    requires f_bound { (word_count f.now ≤ N) × (word_count g.now ≤ N) × (k ≤ N) × (N ≤ max_words) × (k ≡ room_of (longest field) 0 out.old) }
    ensures value { outcome_number result ≡ host_product_answer field f.now g.now out.old }
    ensures out_after { out.new ≡ host_product_written field f.now g.now out.old }
{
    let n = f.len() / 2;
    let m = g.len() / 2;
    let mut a = [0u16; N];
    let mut b = [0u16; N];
    let mut c = [0u16; N];
    product_in(field, f, g, &mut a[..n], &mut b[..m], &mut c[..k], out)
}

// The product of two lists that are bytes.
#[tactic(auto, unfolding(lists::specs::Bytes::word_count, field::specs::Fields::longest))]
fn product_bytes(field: u8, f: &[u8], g: &[u8], out: &mut [u8]) -> Result<(), Refusal>
    ensures value { outcome_number result ≡ host_product_answer field f.now g.now out.old }
    ensures out_after { out.new ≡ host_product_written field f.now g.now out.old }
{
    judge_bytes(field, f, g)?;
    let k = room(field, out, 0);
    let most = (f.len() / 2).max(g.len() / 2).max(k);
    if most <= refusal::FEW_WORDS {
        return product_sized::<{ refusal::FEW_WORDS }>(field, f, g, k, out);
    }
    product_sized::<{ refusal::MAX_WORDS }>(field, f, g, k, out)
}

// The division by way of words: g and f in a and b, the quotient in c, the remainder in d.
fn divide_in(
    field: u8,
    g: &[u8],
    f: &[u8],
    a: &mut [u16],
    b: &mut [u16],
    c: &mut [u16],
    d: &mut [u16],
    q: &mut [u8],
    r: &mut [u8],
) -> Result<(), Refusal>
    requires g_value { (bad_list (longest field) g.now ≡ false) × (bad_list (longest field) f.now ≡ false) }
    requires a_len { (length a.old ≡ word_count g.now) × (length b.old ≡ word_count f.now)
        × (length c.old ≡ room_of (longest field) 0 q.old) × (length d.old ≡ room_of (longest field) (longest field) r.old) }
    ensures value { outcome_number result ≡ host_division_answer field g.now f.now q.old r.old }
    ensures q_after { q.new ≡ host_quotient_written field g.now f.now q.old r.old }
    ensures r_after { r.new ≡ host_remainder_written field g.now f.now q.old r.old }
{
    words::read_words(g, a);
    words::read_words(f, b);
    list_division::divide_over(field, a, b, c, d)?;
    words::write_words(c, q);
    words::write_words(d, r);
    Ok(())
}

// g divided by f, two lists that pass, with results of k and l words, in arrays of N words, which are filled with zeros.
#[tactic(auto, unfolding(lists::specs::Bytes::word_count))]
fn divide_sized<const N: usize>(
    field: u8,
    g: &[u8],
    f: &[u8],
    k: usize,
    l: usize,
    q: &mut [u8],
    r: &mut [u8],
) -> Result<(), Refusal>
    requires g_value { (bad_list (longest field) g.now ≡ false) × (bad_list (longest field) f.now ≡ false) }
    requires g_bound { (word_count g.now ≤ N) × (word_count f.now ≤ N) × (k ≤ N) × (l ≤ N) × (N ≤ max_words) }
    requires k_value { (k ≡ room_of (longest field) 0 q.old) × (l ≡ room_of (longest field) (longest field) r.old) }
    ensures value { outcome_number result ≡ host_division_answer field g.now f.now q.old r.old }
    ensures q_after { q.new ≡ host_quotient_written field g.now f.now q.old r.old }
    ensures r_after { r.new ≡ host_remainder_written field g.now f.now q.old r.old }
{
    let n = g.len() / 2;
    let m = f.len() / 2;
    let mut a = [0u16; N];
    let mut b = [0u16; N];
    let mut c = [0u16; N];
    let mut d = [0u16; N];
    divide_in(
        field,
        g,
        f,
        &mut a[..n],
        &mut b[..m],
        &mut c[..k],
        &mut d[..l],
        q,
        r,
    )
}

// g divided by f, two lists that are bytes.
#[tactic(auto, unfolding(lists::specs::Bytes::word_count, field::specs::Fields::longest))]
fn divide_bytes(field: u8, g: &[u8], f: &[u8], q: &mut [u8], r: &mut [u8]) -> Result<(), Refusal>
    ensures value { outcome_number result ≡ host_division_answer field g.now f.now q.old r.old }
    ensures q_after { q.new ≡ host_quotient_written field g.now f.now q.old r.old }
    ensures r_after { r.new ≡ host_remainder_written field g.now f.now q.old r.old }
{
    judge_bytes(field, g, f)?;
    let k = room(field, q, 0);
    let l = room(field, r, field::longest_of(field));
    let most = (g.len() / 2).max(f.len() / 2).max(k).max(l);
    if most <= refusal::FEW_WORDS {
        return divide_sized::<{ refusal::FEW_WORDS }>(field, g, f, k, l, q, r);
    }
    divide_sized::<{ refusal::MAX_WORDS }>(field, g, f, k, l, q, r)
}

// The three numbers of an answer as words.
fn write_values(gcd: Gcd, bytes: &mut [u8])
    requires { (gcd.degree.0 < 65536) × (gcd.power.0 < 65536) × (gcd.rounds.0 < 65536) × (length bytes.old ≡ 6) }
    ensures { bytes.new ≡ bytes_of (gcd.degree.0 ∷ gcd.power.0 ∷ gcd.rounds.0 ∷ []) }
{
    let three = [gcd.degree.0 as u16, gcd.power.0 as u16, gcd.rounds.0 as u16];
    words::write_words(&three, bytes);
}

// The GCD by way of words: the lists in a and b, h in c.
fn gcd_in(
    field: u8,
    f: &[u8],
    g: &[u8],
    a: &mut [u16],
    b: &mut [u16],
    c: &mut [u16],
    h: &mut [u8],
    answer: &mut [u8],
) -> Result<(), Refusal>
    requires f_value { (bad_list (longest field) f.now ≡ false) × (bad_list (longest field) g.now ≡ false) }
    requires a_len { (length a.old ≡ word_count f.now) × (length b.old ≡ word_count g.now)
        × (length c.old ≡ gcd_room (longest field) h.old answer.old) }
    ensures value { outcome_number result ≡ host_gcd_answer field f.now g.now h.old answer.old }
    ensures h_after { h.new ≡ host_gcd_written field f.now g.now h.old answer.old }
    ensures answer_after { answer.new ≡ host_values_written field f.now g.now h.old answer.old }
{
    words::read_words(f, a);
    words::read_words(g, b);
    let gcd = list_gcd::gcd_over(field, a, b, c)?;
    words::write_words(c, h);
    write_values(gcd, answer);
    Ok(())
}

// The GCD of two lists that pass, with k words for h, in arrays that take any list.
#[tactic(auto, unfolding(lists::specs::Bytes::word_count))]
fn gcd_lists(
    field: u8,
    f: &[u8],
    g: &[u8],
    k: usize,
    h: &mut [u8],
    answer: &mut [u8],
) -> Result<(), Refusal>
    requires f_value { (bad_list (longest field) f.now ≡ false) × (bad_list (longest field) g.now ≡ false) }
    requires f_bound { (word_count f.now ≤ max_words) × (word_count g.now ≤ max_words) × (k ≤ max_words) × (k ≡ gcd_room (longest field) h.old answer.old) }
    ensures value { outcome_number result ≡ host_gcd_answer field f.now g.now h.old answer.old }
    ensures h_after { h.new ≡ host_gcd_written field f.now g.now h.old answer.old }
    ensures answer_after { answer.new ≡ host_values_written field f.now g.now h.old answer.old }
{
    let n = f.len() / 2;
    let m = g.len() / 2;
    let mut a = [0u16; refusal::MAX_WORDS];
    let mut b = [0u16; refusal::MAX_WORDS];
    let mut c = [0u16; refusal::MAX_WORDS];
    gcd_in(
        field,
        f,
        g,
        &mut a[..n],
        &mut b[..m],
        &mut c[..k],
        h,
        answer,
    )
}

// The GCD of two lists that are bytes.
#[tactic(auto, unfolding(lists::specs::Bytes::word_count, field::specs::Fields::longest))]
fn gcd_bytes(field: u8, f: &[u8], g: &[u8], h: &mut [u8], answer: &mut [u8]) -> Result<(), Refusal>
    ensures value { outcome_number result ≡ host_gcd_answer field f.now g.now h.old answer.old }
    ensures h_after { h.new ≡ host_gcd_written field f.now g.now h.old answer.old }
    ensures answer_after { answer.new ≡ host_values_written field f.now g.now h.old answer.old }
{
    judge_bytes(field, f, g)?;
    let k = gcd_room(field, h, answer);
    gcd_lists(field, f, g, k, h, answer)
}
