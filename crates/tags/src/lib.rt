// Tags: the kind of a name, closing tags, start tags, and the next token from a place on.
#![tactic(auto)]

ghost use Rattle.std.specs.Prelude.{◌≡◌, suc, ◌+◌, ◌≤◌, ◌-◌, ◌<◌, ◌^◌, length, drop, take};
ghost use Rattle.slices.specs.Bytes.{other, span};
ghost use Rattle.scan.specs.Colons.{Scanned};
ghost use Rattle.document.specs.Tokens.{opening, closing};
ghost use Rattle.document.specs.Elements.{kind_of, local_name};
ghost use Rattle.document.specs.Prefixes.{local_start};
ghost use Rattle.document.specs.Refusals.{showing, fault_in};
ghost use Rattle.document.specs.Outcome.{Tokenises, Steps};
ghost use Rattle.tags.specs.Kinds.{exact_kind, local_kind};
ghost use Rattle.tags.specs.Outcome.{TagStart, TagAt, closing_token, Ends};

use attributes::attributes;
use document::{Closing, ClosingTag, Excerpt, Next, Refusal, StartTag, Token, kinds};
use faults::Fault;
use scan::{ClassTable, Colons, Name};

// The end of a start tag: whether it is `/>`, and the place after it. `closes` is a bool: both answers have a place.
#[derive(Clone, Copy)]
pub struct TagEnd {
    pub closes: bool,
    pub end: usize,
}

// The kind of a name by the names that are taken whole, or 0: no Option here and below, since the definitions answer so.
#[tactic(auto, using(crate::proofs::Kind::listed))]
fn exact_kind(name: &[u8]) -> u32
    ensures { result ≡ exact_kind name.now }
{
    match name {
        b"node" => kinds::NODE,
        b"interface" => kinds::INTERFACE,
        b"method" => kinds::METHOD,
        b"property" => kinds::PROPERTY,
        b"signal" => kinds::SIGNAL,
        b"annotation" => kinds::ANNOTATION,
        b"arg" => kinds::ARG,
        _ => 0,
    }
}

// The kind of a local name, or 0.
#[tactic(auto, using(crate::proofs::Kind::listed))]
fn local_kind(name: &[u8]) -> u32
    ensures { result ≡ local_kind name.now }
{
    match name {
        b"simple-type" => kinds::SIMPLE_TYPE,
        b"enum" => kinds::ENUM,
        b"enumvalue" => kinds::ENUMVALUE,
        b"struct" => kinds::STRUCT,
        b"member" => kinds::MEMBER,
        b"mapping" => kinds::MAPPING,
        b"docstring" => kinds::DOCSTRING,
        _ => 0,
    }
}

// The kind of an element, by its name and its local name.
#[tactic(auto, using(crate::proofs::Kind::kinds))]
fn kind_of(name: &[u8], local: &[u8]) -> u32
    requires { local.now ≡ local_name name.now }
    ensures { result ≡ kind_of name.now }
{
    let kind = exact_kind(name);
    if kind != 0 {
        return kind;
    }
    local_kind(local)
}

// Where the local name begins of a name that begins at a place: past the last colon, or there.
fn local_start(at: usize, colons: Option<Colons>) -> usize
    requires { local_start «at» colons < 2 ^ 64 }
    ensures { result ≡ local_start «at» colons }
{
    match colons {
        None => at,
        Some(colons) => colons.last + 1,
    }
}

// The kind of the element whose name begins at a place.
#[tactic(auto, using(crate::proofs::Kind::placed))]
fn kind_at(doc: &[u8], at: usize, name: Name) -> u32
    requires scanned { Scanned doc.now «at» name }
    requires small { length doc.now ≤ 1048576 }
    ensures { result ≡ kind_of (take (name.end - «at») (drop «at» doc.now)) }
{
    let end = name.end;
    let colons = name.colons;
    let local = local_start(at, colons);
    kind_of(&doc[at..end], &doc[local..end])
}

// The closing tag whose `</` stands at a place: a name, white space, `>`.
pub fn closing_tag(doc: &[u8], classes: &ClassTable, lt: usize) -> Result<ClosingTag, Refusal>
    requires start { TagStart doc.now lt }
    requires longer { lt + 2 ≤ length doc.now }
    ensures { TagAt doc.now lt (closing (drop (lt + 2) doc.now) lt) (closing_token result) }
{
    let at = lt + 2;
    let name = scan::name_at(doc, classes, at);
    let named = name.end;
    if named == at {
        return Err(document::bare(4, lt + 1));
    }
    let end = scan::space_end(doc, classes, named);
    if doc.len() <= end || doc[end] != b'>' {
        return Err(document::bare(4, lt + 1));
    }
    Ok(ClosingTag {
        lt,
        at,
        len: named - at,
        end: end + 1,
    })
}

// The end of a start tag, past the white space from a place on; or the fault where it was wanted.
pub fn tag_end(doc: &[u8], classes: &ClassTable, from: usize) -> Result<TagEnd, Fault>
    requires { from ≤ length doc.now }
    ensures { Ends doc.now from result }
{
    let at = scan::space_end(doc, classes, from);
    if doc.len() <= at {
        return Err(Fault::new(4, at));
    }
    if doc[at] == b'>' {
        return Ok(TagEnd {
            closes: false,
            end: at + 1,
        });
    }
    let next = at + 1;
    if doc[at] != b'/' || doc.len() <= next || doc[next] != b'>' {
        return Err(Fault::new(4, at)); // at the slash, where there is one
    }
    Ok(TagEnd {
        closes: true,
        end: at + 2,
    })
}

// A fault at a reference, which is shown from its place to its `;`.
fn reference_in(doc: &[u8], number: u32, place: usize) -> Refusal
    requires inside { place ≤ length doc.now }
    requires small { length doc.now ≤ 1048576 }
    ensures { result ≡ showing number place
        (record { at = place; len = suc (length (span (other 59) (drop place doc.now))) }) }
{
    let end = slices::find(doc, place, b';');
    document::showing(number, place, Excerpt::new(place, end - place + 1))
}

// The refusal of a fault in the attributes: 8 shows the attribute's name, 10 and 11 the reference.
#[tactic(auto, using(crate::proofs::Faults::faults))]
fn fault_in(doc: &[u8], classes: &ClassTable, fault: Fault) -> Refusal
    requires inside { fault.place ≤ length doc.now }
    requires small { length doc.now ≤ 1048576 }
    ensures { result ≡ fault_in doc.now fault.number fault.place }
{
    let number = fault.number;
    let place = fault.place;
    match number {
        8 => {
            let name = scan::name_at(doc, classes, place);
            document::showing(number, place, Excerpt::new(place, name.end - place))
        }
        10 | 11 => reference_in(doc, number, place),
        _ => document::bare(number, place),
    }
}

// The start tag whose `<` stands at a place, as the token that has it: a StartTag would be copied into one, and it is large.
#[tactic(auto, using(crate::proofs::Startings::startings))]
fn start_tag(doc: &[u8], classes: &ClassTable, lt: usize) -> Result<Token, Refusal>
    requires { TagStart doc.now lt }
    ensures { TagAt doc.now lt (opening (drop (lt + 1) doc.now) lt) result }
{
    let at = lt + 1;
    let name = scan::name_at(doc, classes, at);
    let named = name.end;
    if named == at {
        return Err(document::bare(4, at));
    }
    let gathered = attributes(doc, classes, named).map_err(|f| fault_in(doc, classes, f))?;
    let end = tag_end(doc, classes, gathered.end)?;
    let kind = kind_at(doc, at, name);
    Ok(Token::Start(StartTag {
        at,
        len: named - at,
        kind,
        closes: end.closes,
        end: end.end,
        values: gathered.values,
    }))
}

// The next token from a place on: the end, a closing tag, or a start tag.
// Closing tags and start tags are told apart here: a function of its own would copy the token, which is large, once more.
#[tactic(auto, using(crate::proofs::Nexts::nexts))]
pub fn token(doc: &[u8], classes: &ClassTable, from: usize) -> Result<Token, Refusal>
    requires inside { from ≤ length doc.now }
    requires small { length doc.now ≤ 1048576 }
    ensures { Tokenises doc.now from result }
{
    let at = scan::ignorable(doc, from)?;
    if doc.len() <= at {
        return Ok(Token::End(at));
    }
    let next = at + 1;
    if doc.len() <= next {
        return Err(document::bare(4, next));
    }
    if doc[next] == b'/' {
        return Ok(Token::Close(closing_tag(doc, classes, at)?));
    }
    start_tag(doc, classes, at)
}

// What comes next in an open element, whose name stands at a place with a length: 5 at the end, 6 after another closing tag.
// Place and length are passed apart, here and by its callers: an `Excerpt` has words of 32 bits, which each use would widen.
#[tactic(auto, using(crate::proofs::Stepping::stepping))]
pub fn step(
    doc: &[u8],
    classes: &ClassTable,
    from: usize,
    at: usize,
    len: usize,
) -> Result<Next, Refusal>
    requires inside { from ≤ length doc.now }
    requires named { at + len ≤ length doc.now }
    requires small { length doc.now ≤ 1048576 }
    ensures { Steps doc.now from at len result }
{
    match token(doc, classes, from)? {
        Token::End(place) => Err(document::showing(5, place, Excerpt::new(at, len))),
        Token::Close(c) => {
            let open = at + len;
            let named = c.at;
            let close = named + c.len;
            if slices::equal(&doc[named..close], &doc[at..open]) {
                return Ok(Next::Close(Closing {
                    lt: c.lt,
                    end: c.end,
                }));
            }
            let first = Excerpt::new(named, c.len);
            let second = Excerpt::new(at, len);
            Err(Refusal {
                second,
                ..document::showing(6, c.end, first)
            })
        }
        Token::Start(c) => Ok(Next::Start(c)),
    }
}
