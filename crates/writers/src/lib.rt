// The four writers: method, signal, annotation and arg, from sound rows.
// A buffer and a count are passed, and no `Writer`: each clause would also have to say that it holds the same borrow, as a `&mut [u8]` does by itself.
#![tactic(auto)]

ghost use Rattle.std.specs.Prelude.{◌+◌, ◌*◌, ◌≤◌, ◌<◌, ◌^◌, true, length};
ghost use Rattle.items.specs.Words.{Word};
ghost use Rattle.items.specs.Written.{optional};
ghost use Rattle.items.specs.Writing.{Writes};
ghost use Rattle.writer.specs.Counts.{CountFits};
ghost use Rattle.writers.specs.Rows.{RowHeld};
ghost use Rattle.writers.specs.Writes.{ShownAt, Puttable, ShownPut, AnnotationPut, IfAnnotationPut, Scannable, AnnotationsPut, PairsPut, name_at, type_at, DirectionPut, ArgTagPut, ArgPut, ArgsScannable, Turn, IfArgPut, args_in, NotesScannable, annotations_in, MemberTagPut, MemberEndPut, MemberScannable, ChildrenPut, MemberPut, Writable, ItemPut, KindPut};
ghost use Rattle.items.specs.Several.{WritesSeveral};
ghost use Rattle.soundness.specs.Outcome as outcome;
ghost use Rattle.writers.specs.Rows.{Held};
ghost use Rattle.writers.specs.Entry.{Admitted, WritesSound};
ghost use Rattle.writers.specs.Several.{IsItem, At, Asks, RowPut, Missing, Fit, VetsItems, Vets, SeveralPut, Fits, FinishesItems, WritesFit, Clears};

use answers::TextAnswer;
use answers::put::put_bytes;
use document::kinds;
use faults::Fault;
use scan::ClassTable;

mod children;

// What items are written from: the document, the text of the rows, the rows, and the classes of bytes.
#[derive(Clone, Copy)]
struct Source<'a> {
    document: &'a [u8],
    text: &'a [u8],
    rows: &'a [u32],
    classes: &'a ClassTable,
    ghost short_document: { length document.now ≤ 1048576 },
    ghost short_text: { length text.now ≤ 1048576 },
}

// What the triple from word k on of row i shows.
#[tactic(auto, using(crate::proofs::Texts::texts))]
fn shown_at<'a>(source: &Source<'a>, i: usize, k: usize) -> &'a [u8]
    requires row { RowHeld source.now.rows.now i }
    requires word { k ≤ 11 }
    ensures { ShownAt source.now.document.now source.now.text.now source.now.rows.now i k
        result.now }
{
    tables::lookup(
        source.document,
        source.text,
        items::triple(source.rows, i, k),
    )
}

// Puts bytes as they are, then, escaped, what the triple from word k on of row i shows.
fn put_shown(source: &Source, i: usize, k: usize, before: &[u8], out: &mut [u8], n: usize) -> usize
    requires { Puttable source.now.rows.now i k before.now n }
    ensures { ShownPut source.now.document.now source.now.text.now source.now.rows.now i k
        before.now n out.old out.new result }
{
    let value = shown_at(source, i, k);
    writer::put_value(out, n, before, value, source.classes)
}

// Row i as an annotation.
fn put_annotation(source: &Source, i: usize, out: &mut [u8], n: usize) -> usize
    requires row { RowHeld source.now.rows.now i }
    requires room { n + 16777216 < 2 ^ 62 }
    ensures { AnnotationPut source.now.document.now source.now.text.now source.now.rows.now i n
        out.old out.new result }
{
    let named = put_shown(source, i, 2, b"<annotation name=\"", out, n);
    let valued = put_shown(source, i, 5, b"\" value=\"", out, named);
    put_bytes(out, valued, b"\"/>")
}

// Row i as an annotation, if it is one of row p less one.
fn put_if_annotation(source: &Source, p: usize, i: usize, out: &mut [u8], n: usize) -> usize
    requires row { RowHeld source.now.rows.now i }
    requires room { n + 16777216 < 2 ^ 62 }
    ensures { IfAnnotationPut source.now.document.now source.now.text.now source.now.rows.now p i n
        out.old out.new result }
{
    if children::is_child(source.rows, i, kinds::ANNOTATION, p) {
        return put_annotation(source, i, out, n);
    }
    n
}

// The annotations of row p less one among the rows from one on up to another.
#[tactic(auto, using(crate::proofs::Texts::notes))]
fn put_annotations(
    source: &Source,
    p: usize,
    from: usize,
    to: usize,
    out: &mut [u8],
    n: usize,
) -> usize
    requires { Scannable source.now.rows.now from to n }
    ensures { AnnotationsPut source.now.document.now source.now.text.now source.now.rows.now p from to n
        out.old out.new result }
{
    let mut m = n;
    for k in from..to {
        m = put_if_annotation(source, p, k, out, m);
    }
    m
}

// The name of the arg in row i, if it has one.
fn put_arg_name(source: &Source, i: usize, out: &mut [u8], n: usize) -> usize
    requires row { RowHeld source.now.rows.now i }
    requires room { CountFits n 8388608 }
    ensures { PairsPut
        (optional (name_at source.now.document.now source.now.text.now source.now.rows.now i))
        n out.old out.new result }
{
    if items::is_absent(items::triple(source.rows, i, 2)) {
        return n;
    }
    let named = put_shown(source, i, 2, b" name=\"", out, n);
    put_bytes(out, named, b"\"")
}

// The type of the arg in row i.
fn put_arg_type(source: &Source, i: usize, out: &mut [u8], n: usize) -> usize
    requires row { RowHeld source.now.rows.now i }
    requires room { CountFits n 8388608 }
    ensures { PairsPut (type_at source.now.document.now source.now.text.now source.now.rows.now i) n
        out.old out.new result }
{
    let typed = put_shown(source, i, 5, b" type=\"", out, n);
    put_bytes(out, typed, b"\"")
}

// The direction of the arg in row i, if it has one. The three attributes of an arg are three functions, and trees has its own: what would be shared
// is a test and a call, which each use would bring as clauses.
fn put_direction(rows: &[u32], i: usize, out: &mut [u8], n: usize) -> usize
    requires few { i < 262144 }
    requires held { i * 16 + 16 ≤ length rows.now }
    requires room { CountFits n 32 }
    ensures { DirectionPut rows.now i n out.old out.new result }
{
    let direction = items::word(rows, i, 14);
    match direction {
        0 => n,
        1 => put_bytes(out, n, b" direction=\"in\""),
        _ => put_bytes(out, n, b" direction=\"out\""),
    }
}

// The start tag of an arg, up to its end.
fn put_arg_tag(source: &Source, i: usize, out: &mut [u8], n: usize) -> usize
    requires row { RowHeld source.now.rows.now i }
    requires room { CountFits n 16777216 }
    ensures { ArgTagPut source.now.document.now source.now.text.now source.now.rows.now i n out.old
        out.new result }
{
    let tagged = put_bytes(out, n, b"<arg");
    let named = put_arg_name(source, i, out, tagged);
    let typed = put_arg_type(source, i, out, named);
    put_direction(source.rows, i, out, typed)
}

// Row i as an arg; no row from row `to` on is a child of it.
fn put_arg(source: &Source, i: usize, to: usize, out: &mut [u8], n: usize) -> usize
    requires within { i < to }
    requires scan { Scannable source.now.rows.now i to n }
    ensures { ArgPut source.now.document.now source.now.text.now source.now.rows.now i to n out.old
        out.new result }
{
    let tagged = put_arg_tag(source, i, out, n);
    let p = i + 1;
    if children::has_child(source.rows, p, to, kinds::ANNOTATION, p) {
        let opened = put_bytes(out, tagged, b">");
        let noted = put_annotations(source, p, p, to, out, opened);
        return put_bytes(out, noted, b"</arg>");
    }
    put_bytes(out, tagged, b"/>")
}

// Row i as an arg, if it is one of row p less one.
fn put_if_arg(
    source: &Source,
    count: usize,
    p: usize,
    ordered: bool,
    i: usize,
    out: &mut [u8],
    n: usize,
) -> usize
    requires { Turn source.now.rows.now count p ordered i n }
    ensures { IfArgPut source.now.document.now source.now.text.now source.now.rows.now count p i n
        out.old out.new result }
{
    if children::is_child(source.rows, i, kinds::ARG, p) {
        let to = children::last_child(source.rows, count, i, p, ordered);
        return put_arg(source, i, to, out, n);
    }
    n
}

// The args of row p less one.
#[tactic(auto, using(crate::proofs::Members::argues))]
fn put_args(
    source: &Source,
    count: usize,
    p: usize,
    ordered: bool,
    out: &mut [u8],
    n: usize,
) -> usize
    requires scan { ArgsScannable source.now.rows.now count p ordered }
    requires room { CountFits n 2305843009213693952 }
    ensures { KindPut (args_in source.now.document.now source.now.text.now source.now.rows.now count p p) n
        out.old out.new result }
{
    let mut m = n;
    for k in p..count {
        m = put_if_arg(source, count, p, ordered, k, out, m);
    }
    m
}

// The annotations of row p less one.
fn put_notes(source: &Source, count: usize, p: usize, out: &mut [u8], n: usize) -> usize
    requires scan { NotesScannable source.now.rows.now count p }
    requires room { CountFits n 2305843009213693952 }
    ensures { KindPut
        (annotations_in source.now.document.now source.now.text.now source.now.rows.now p p count)
        n out.old out.new result }
{
    put_annotations(source, p, p, count, out, n)
}

// The start tag of a method or a signal, up to the end of its name.
// The words stand whole here and in `put_member_end`: if they were put together from the tag's name, each would take a call for each piece.
fn put_member_tag(source: &Source, i: usize, kind: u32, out: &mut [u8], n: usize) -> usize
    requires row { RowHeld source.now.rows.now i }
    requires room { n < 4294967296 }
    ensures { MemberTagPut source.now.document.now source.now.text.now source.now.rows.now i kind n
        out.old out.new result }
{
    match kind {
        kinds::METHOD => put_shown(source, i, 2, b"<method name=\"", out, n),
        _ => put_shown(source, i, 2, b"<signal name=\"", out, n),
    }
}

// The closing tag of a method or a signal.
fn put_member_end(kind: u32, out: &mut [u8], n: usize) -> usize
    requires { n + 16 < 2 ^ 62 }
    ensures { MemberEndPut kind n out.old out.new result }
{
    match kind {
        kinds::METHOD => put_bytes(out, n, b"</method>"),
        _ => put_bytes(out, n, b"</signal>"),
    }
}

// The children of row i: args before annotations.
fn put_children(source: &Source, count: usize, i: usize, out: &mut [u8], n: usize) -> usize
    requires scan { MemberScannable source.now.rows.now count i }
    requires room { CountFits n 3458764513820540928 }
    ensures { ChildrenPut source.now.document.now source.now.text.now source.now.rows.now count i n
        out.old out.new result }
{
    let p = i + 1;
    let ordered = children::is_ordered(source.rows, count, i);
    let argued = put_args(source, count, p, ordered, out, n);
    put_notes(source, count, p, out, argued)
}

// Row i as a method or a signal.
fn put_member(source: &Source, count: usize, i: usize, kind: u32, out: &mut [u8], n: usize) -> usize
    requires scan { MemberScannable source.now.rows.now count i }
    requires room { n < 4294967296 }
    ensures { MemberPut source.now.document.now source.now.text.now source.now.rows.now count i kind n
        out.old out.new result }
{
    let tagged = put_member_tag(source, i, kind, out, n);
    if children::has_children(source.rows, i + 1, count) {
        let opened = put_bytes(out, tagged, b"\">");
        let inside = put_children(source, count, i, out, opened);
        return put_member_end(kind, out, inside);
    }
    put_bytes(out, tagged, b"\"/>")
}

// Whether rows of a kind are written.
fn is_writable(kind: u32) -> bool
    ensures { Writable kind result }
{
    matches!(
        kind,
        kinds::METHOD | kinds::SIGNAL | kinds::ANNOTATION | kinds::ARG
    )
}

// Row i, whose kind is given.
#[tactic(auto, using(crate::proofs::Entry::items))]
fn put_item(source: &Source, count: usize, i: usize, kind: u32, out: &mut [u8], n: usize) -> usize
    requires scan { MemberScannable source.now.rows.now count i }
    requires kind { Word source.now.rows.now i 0 kind }
    requires writable { Writable kind true }
    requires room { n < 4294967296 }
    ensures { ItemPut source.now.document.now source.now.text.now source.now.rows.now count i n
        out.old out.new result }
{
    match kind {
        kinds::ANNOTATION => put_annotation(source, i, out, n),
        kinds::ARG => put_arg(source, i, count, out, n),
        _ => put_member(source, count, i, kind, out, n),
    }
}

// A row of sound rows: 20 where there is no such row or its kind is not written, 21 where there is no room.
fn write_sound<'a>(
    document: &'a [u8],
    text: &'a [u8],
    rows: &[u32],
    claimed: usize,
    row: usize,
    out: &mut [u8],
) -> TextAnswer
    requires { Admitted document.now text.now rows.now claimed }
    ensures { WritesSound document.now text.now rows.now claimed row
        out.old out.new result }
{
    if claimed <= row {
        return answers::refuse(out, Fault::new(20, row));
    }
    let kind = items::word(rows, row, 0);
    if is_writable(kind) {
        let classes = scan::classes();
        let source = Source {
            document,
            text,
            rows,
            classes: &classes,
        };
        let n = put_item(&source, claimed, row, kind, out, 0);
        return answers::finish(out, n, Fault::new(21, n));
    }
    answers::refuse(out, Fault::new(20, row))
}

// Writes a method, a signal, an annotation or an arg. Refused with 2 for a document or a text of more than 1,048,576 bytes,
// with 19 for rows that are not sound, with 20 for no such row or one of another kind, and with 21 and the bytes needed where
// there is no room. Beside `trees::write_tree`: what is shared is a match of two lines.
pub fn write<'a>(
    document: &'a [u8],
    text: &'a [u8],
    rows: &[u32],
    claimed: usize,
    row: usize,
    out: &mut [u8],
) -> TextAnswer
    ensures { Writes document.now text.now rows.now claimed row
        (length out.old) out.new result }
{
    match soundness::admit(document, text, rows, claimed) {
        Err(fault) => answers::refuse(out, fault),
        Ok(()) => write_sound(document, text, rows, claimed, row, out),
    }
}

// Whether there is row i, and its kind is written.
#[tactic(auto, using(crate::proofs::Several::kinds_of))]
fn is_item(rows: &[u32], n: usize, i: usize) -> bool
    requires { Held rows.now n }
    ensures { IsItem rows.now n i result }
{
    i < n && is_writable(items::word(rows, i, 0))
}

// The k-th row asked for.
fn asked_at(asked: &[u32], k: usize) -> usize
    requires { k < length asked.now }
    ensures { At asked.now k result }
{
    asked[k] as usize
}

// The first of the rows asked for that is no item, if there is one.
fn first_missing(rows: &[u32], n: usize, asked: &[u32]) -> Option<usize>
    requires { Held rows.now n }
    ensures { Missing rows.now n asked.now result }
{
    asked
        .iter()
        .map(|&row| row as usize)
        .find(|&row| !is_item(rows, n, row))
}

// Of sound rows: 20 at the first row that is no item, 18 at how many are asked for where there are fewer words for their ends.
#[tactic(auto, using(crate::proofs::Several::vetting))]
fn vet_items(rows: &[u32], n: usize, asked: &[u32], slots: usize) -> Result<(), Fault>
    requires { Held rows.now n }
    ensures { VetsItems rows.now n asked.now slots result }
{
    if let Some(row) = first_missing(rows, n, asked) {
        return Err(Fault::new(20, row));
    }
    if slots < asked.len() {
        return Err(Fault::new(18, asked.len()));
    }
    Ok(())
}

// Of any rows: 2 and 19 too.
fn vet<'a>(
    document: &'a [u8],
    text: &'a [u8],
    rows: &[u32],
    claimed: usize,
    asked: &[u32],
    slots: usize,
) -> Result<(), Fault>
    ensures { Vets document.now text.now rows.now claimed asked.now
        slots result }
{
    soundness::admit(document, text, rows, claimed)?;
    vet_items(rows, claimed, asked, slots)
}

// The item of the k-th row asked for; in document order only the rows of its own run are looked at.
#[tactic(auto, using(crate::proofs::Several::row))]
fn put_row(
    source: &Source,
    count: usize,
    ordered: bool,
    asked: &[u32],
    k: usize,
    out: &mut [u8],
    n: usize,
) -> usize
    requires rows { Held source.now.rows.now count }
    requires asks { Asks source.now.rows.now count asked.now k }
    requires order { outcome.Orders source.now.rows.now count ordered }
    requires room { n < 4294967296 }
    ensures { RowPut source.now.document.now source.now.text.now source.now.rows.now count asked.now k n
        out.old out.new result }
{
    let i = asked_at(asked, k);
    let kind = items::word(source.rows, i, 0);
    let to = children::reach(source.rows, count, i, ordered);
    put_item(source, to, i, kind, out, n)
}

// The items of the rows asked for, and where each ends; says how many bytes they are, or 4,294,967,296 if a word does not count them.
// That number and not an Option: it is the place that refusal 21 tells.
#[tactic(auto, using(crate::proofs::Several::adding))]
fn put_rows(
    source: &Source,
    count: usize,
    ordered: bool,
    asked: &[u32],
    out: &mut [u8],
    ends: &mut [u32],
) -> usize
    requires rows { Held source.now.rows.now count }
    requires fit { Fit source.now.rows.now count asked.now (length ends.old) }
    requires order { outcome.Orders source.now.rows.now count ordered }
    ensures { SeveralPut source.now.document.now source.now.text.now source.now.rows.now count
        asked.now out.new ends.new result }
{
    let mut n = 0;
    for k in 0..asked.len() {
        n = put_row(source, count, ordered, asked, k, out, n);
        if 4294967295 < n {
            return 4294967296;
        }
        ends[k] = n as u32;
    }
    n
}

// Leaves zeros.
fn refuse_items(out: &mut [u8], ends: &mut [u32], fault: Fault) -> TextAnswer
    ensures { Clears fault.number fault.place (length out.old) (length ends.old) out.new
        ends.new result }
{
    tables::clear_words(ends, 0);
    answers::refuse(out, fault)
}

// Whether n bytes have room, and a word counts them.
fn fits(n: usize, room: usize) -> bool
    ensures { Fits n room result }
{
    n <= room && n <= 4294967295
}

// Leaves n bytes and so many ends, and zeros after them; or zeros where they do not fit.
fn finish_items(out: &mut [u8], ends: &mut [u32], n: usize, count: usize) -> TextAnswer
    ensures { FinishesItems count n out.old ends.old out.new ends.new result }
{
    if !fits(n, out.len()) {
        return refuse_items(out, ends, Fault::new(21, n));
    }
    tables::clear_words(ends, count);
    tables::clear_bytes(out, n);
    Ok(n)
}

// Items of sound rows, with words for their ends.
#[tactic(auto, using(crate::proofs::Several::written_fit))]
fn write_fit<'a>(
    document: &'a [u8],
    text: &'a [u8],
    rows: &[u32],
    claimed: usize,
    asked: &[u32],
    out: &mut [u8],
    ends: &mut [u32],
) -> TextAnswer
    requires admitted { Admitted document.now text.now rows.now claimed }
    requires fit { Fit rows.now claimed asked.now (length ends.old) }
    ensures { WritesFit document.now text.now rows.now claimed
        asked.now (length out.old) (length ends.old) out.new ends.new
        result }
{
    let ordered = soundness::order::in_document_order(rows, claimed);
    let classes = scan::classes();
    let source = Source {
        document,
        text,
        rows,
        classes: &classes,
    };
    let n = put_rows(&source, claimed, ordered, asked, out, ends);
    finish_items(out, ends, n, asked.len())
}

// Writes several methods, signals, annotations or args, one after the other, after one check of the rows; says where each ends. Refused
// with 2 and 19 as `write` is, with 20 at the first row that is asked for and is none or one of another kind, with 18 and how many are asked
// for where there are fewer words for their ends, and with 21 and the bytes needed where there is no room, or 4,294,967,296 if they
// are as many or more.
pub fn write_items<'a>(
    document: &'a [u8],
    text: &'a [u8],
    rows: &[u32],
    claimed: usize,
    asked: &[u32],
    out: &mut [u8],
    ends: &mut [u32],
) -> TextAnswer
    ensures { WritesSeveral document.now text.now rows.now claimed
        asked.now (length out.old) (length ends.old) out.new ends.new
        result }
{
    match vet(document, text, rows, claimed, asked, ends.len()) {
        Err(fault) => refuse_items(out, ends, fault),
        Ok(()) => write_fit(document, text, rows, claimed, asked, out, ends),
    }
}
