// The breaches of the strict profile in a document that is accepted: one walk over its tags and comments, which keeps the least.
#![tactic(auto)]

ghost use Rattle.std.specs.Prelude.{◌≡◌, ◌+◌, ◌-◌, ◌≤◌, ◌<◌, length, take, drop, Ok};
ghost use Rattle.scan.specs.Ignorable.{Marks};
ghost use Rattle.scan.specs.declared.Markup.{Markup};
ghost use Rattle.document.specs.Outcome.{Sound};
ghost use Rattle.attributes.specs.One.{attr_of};
ghost use Rattle.tags.specs.Outcome.{TagStart};
ghost use Rattle.profile.specs.Profile.{hyphens, raw};
ghost use Rattle.met.specs.Met.{met_tags};
ghost use Rattle.breaches.specs.Least.{lesser, least};
ghost use Rattle.breaches.specs.Breaches.{places_of, in_name, root_name, breaches};
ghost use Rattle.breaches.specs.Outcome.{Accepted, NameAt, AttributeAt, ignored_breach, attribute_breach, Passes, Collects, Starts, Closes, Walking, Walked, Walks};

use attributes::Attribute;
use document::Token;
use scan::{ClassTable, Markup};

// Where a scan came to, and the least breach on the way.
#[derive(Clone, Copy)]
struct Way {
    at: usize,
    breach: Option<usize>,
}

// A start tag: whether it is `/>`, the place after it, the least breach in it.
#[derive(Clone, Copy)]
struct Opened {
    closes: bool,
    at: usize,
    breach: Option<usize>,
}

// The walk over the tokens: its place, how many elements are open, the least breach so far.
#[derive(Clone, Copy)]
struct Walk {
    at: usize,
    depth: usize,
    breach: Option<usize>,
}

// The lesser of two.
fn lesser(a: Option<usize>, b: Option<usize>) -> Option<usize>
    ensures { result ≡ lesser a b }
{
    match (a, b) {
        (Some(p), Some(q)) => Some(p.min(q)),
        (Some(p), None) => Some(p),
        (None, _) => b,
    }
}

// In the name from a place to another.
fn name_breach(doc: &[u8], from: usize, to: usize) -> Option<usize>
    requires { NameAt doc.now from to }
    ensures { result ≡ least (in_name (take (to - from) (drop from doc.now)) from) }
{
    profile::name_fault(&doc[from..to]).map(|p| from + p)
}

// In the raw value from a place to another.
fn value_breach(doc: &[u8], from: usize, to: usize) -> Option<usize>
    requires ordered { from ≤ to }
    requires inside { to ≤ length doc.now }
    requires short { length doc.now ≤ 1048576 }
    ensures { result ≡ least (places_of raw (take (to - from) (drop from doc.now)) from) }
{
    profile::value_fault(&doc[from..to]).map(|p| from + p)
}

// In the comment whose `<` stands at a place and which ends at another.
fn comment_breach(doc: &[u8], at: usize, end: usize) -> Option<usize>
    requires long { «at» + 7 ≤ «end» }
    requires inside { «end» ≤ length doc.now }
    requires short { length doc.now ≤ 1048576 }
    ensures { result ≡ least
        (places_of hyphens (take («end» - 3 - («at» + 4)) (drop («at» + 4) doc.now)) («at» + 4)) }
{
    let from = at + 4;
    profile::comment_fault(&doc[from..end - 3]).map(|p| from + p)
}

// In what is ignored from a `<` to a place: only a comment has breaches.
fn ignored_breach(doc: &[u8], at: usize, end: usize) -> Option<usize>
    requires inside { «at» < length doc.now }
    requires ignored { Marks doc.now «at» (Ok (Markup.Ignored «end»)) }
    requires short { length doc.now ≤ 1048576 }
    ensures { result ≡ ignored_breach doc.now «at» }
{
    if slices::starts_at(doc, at + 1, b"!--") {
        return comment_breach(doc, at, end);
    }
    None
}

// Past what is ignorable, to the next tag's `<`.
fn to_tag(doc: &[u8], from: usize) -> Way
    requires in_bounds { from ≤ length doc.now }
    requires short { length doc.now ≤ 1048576 }
    ensures { Passes doc.now from result }
{
    let mut breach = None;
    let mut at = slices::find(doc, from, b'<');
    // The next place is what the call found, so no range gives it.
    while at < doc.len() {
        match scan::markup_at(doc, at) {
            Ok(Markup::Ignored(next)) => {
                breach = lesser(breach, ignored_breach(doc, at, next));
                at = slices::find(doc, next, b'<');
            }
            Ok(Markup::Tag) => {
                return Way { at, breach };
            }
            Err(_) => {
                return Way {
                    at: doc.len(),
                    breach,
                };
            }
        }
    }
    Way { at, breach }
}

// In an attribute.
fn attribute_breach(doc: &[u8], a: Attribute) -> Option<usize>
    requires { AttributeAt doc.now a }
    ensures { result ≡ attribute_breach (attr_of doc.now a) }
{
    let name = a.name as usize;
    let value = a.value as usize;
    let n = name_breach(doc, name, name + a.name_len as usize);
    let v = value_breach(doc, value, value + a.value_len as usize);
    lesser(v, n)
}

// In the attributes from a place on, and where they end.
fn attributes_breach(doc: &[u8], classes: &ClassTable, from: usize) -> Way
    requires sound { Sound doc.now }
    requires in_bounds { from ≤ length doc.now }
    ensures { Collects doc.now from result }
{
    let mut breach = None;
    let mut at = from;
    // The next place is what the call found, so no range gives it.
    loop {
        match attributes::attribute_at(doc, classes, at) {
            None => {
                return Way { at, breach };
            }
            Some(found) => {
                breach = lesser(breach, attribute_breach(doc, found.attribute));
                at = found.end;
            }
        }
    }
}

// In the start tag whose `<` stands at a place.
fn start_breach(doc: &[u8], classes: &ClassTable, lt: usize) -> Opened
    requires sound { Sound doc.now }
    requires tag { TagStart doc.now lt }
    ensures { Starts doc.now lt result }
{
    let at = lt + 1;
    let name = scan::name_at(doc, classes, at);
    let named = name.end;
    let way = attributes_breach(doc, classes, named);
    let inner = way.breach;
    let own = name_breach(doc, at, named);
    let breach = lesser(own, inner);
    match tags::tag_end(doc, classes, way.at) {
        Err(_) => Opened {
            closes: true,
            at: doc.len(),
            breach,
        },
        Ok(end) => Opened {
            closes: end.closes,
            at: end.end,
            breach,
        },
    }
}

// The place after the closing tag whose `<` stands at a place.
fn close_end(doc: &[u8], classes: &ClassTable, lt: usize) -> usize
    requires tag { TagStart doc.now lt }
    requires inside { lt + 2 ≤ length doc.now }
    ensures { Closes doc.now lt result }
{
    match tags::closing_tag(doc, classes, lt) {
        Ok(c) => c.end,
        Err(_) => doc.len(),
    }
}

// One token more.
fn step(doc: &[u8], classes: &ClassTable, w: Walk) -> Walk
    requires { Walking doc.now w }
    ensures { Walked doc.now w.at result }
{
    let way = to_tag(doc, w.at);
    let lt = way.at;
    let so_far = w.breach;
    let passed = way.breach;
    let breach = lesser(so_far, passed);
    if doc[lt + 1] == b'/' {
        return Walk {
            at: close_end(doc, classes, lt),
            depth: w.depth - 1,
            breach,
        };
    }
    let t = start_breach(doc, classes, lt);
    let inner = t.breach;
    let all = lesser(breach, inner);
    if t.closes {
        return Walk {
            at: t.at,
            depth: w.depth,
            breach: all,
        };
    }
    Walk {
        at: t.at,
        depth: w.depth + 1,
        breach: all,
    }
}

// Up to the root's end.
fn to_root_end(doc: &[u8], classes: &ClassTable) -> Walk
    requires { Accepted doc.now }
    ensures { Walks doc.now result }
{
    let mut w = Walk {
        at: 0,
        depth: 0,
        breach: None,
    };
    // The next place is what the step found, so no range gives it.
    loop {
        w = step(doc, classes, w);
        if w.depth == 0 {
            return w;
        }
    }
}

// In the root's name.
fn root_breach(doc: &[u8], classes: &ClassTable) -> Option<usize>
    requires { Accepted doc.now }
    ensures { result ≡ least (root_name (met_tags doc.now)) }
{
    match tags::token(doc, classes, 0) {
        Ok(Token::Start(c)) => {
            let at = c.at;
            let end = at + c.len;
            if slices::equal(&doc[at..end], b"node") {
                return None;
            }
            Some(at)
        }
        _ => None,
    }
}

// The least breach of a document that is accepted.
pub fn least_breach(doc: &[u8]) -> Option<usize>
    requires { Accepted doc.now }
    ensures { result ≡ least (breaches doc.now) }
{
    let classes = scan::classes();
    let w = to_root_end(doc, &classes);
    let met = w.breach;
    let text = profile::char_fault(doc);
    let after = profile::after_fault(doc, w.at);
    let root = root_breach(doc, &classes);
    lesser(lesser(met, text), lesser(root, after))
}
