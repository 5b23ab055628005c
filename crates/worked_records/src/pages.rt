ghost use Rattle.std.specs.Prelude.{◌≡◌, ℕ, ◌+◌, ◌^◌, ◌<◌, ◌≤◌, length, All, option_to_list};
ghost use Rattle.segment_core.specs.Segments.{segment_sum};

use paged_view::reader::PageReader;
use paged_view::writer::PageWriter;
use segment_core::{Pool, Purse, Segment};
use span_bytes::span::Span;
use std::alloc::Global;
use std::process::Abort;

// Whether a span shows these bytes, by pieces and by single bytes.
fn shows<X: Span>(span: &X, bytes: &[u8]) -> bool {
    if span.len() != bytes.len() {
        return false;
    }
    let mut from = 0;
    'pieces: while from < bytes.len() {
        let piece = span.piece(from);
        if !bytes[from..].starts_with(piece) || span.at(from) != bytes[from] {
            return false;
        }
        from += piece.len();
    }
    true
}

// Whether the reader's next record has these bytes, if it has one.
fn next_shows(reader: &mut PageReader, row: &[u8]) -> Option<bool>
    ensures pages { reader.new.pages ≡ reader.old.pages }
    ensures room { reader.new.room ≡ reader.old.room }
{
    match reader.next() {
        Ok(record) => Some(shows(&record, row)),
        Err(_) => None,
    }
}

// Hands full pages, or all pages with bytes, from the writer to the reader, and those that are read back.
fn turn_over(writer: &mut PageWriter, reader: &mut PageReader, all: bool)
    requires writer_room { length writer.old.pages + length reader.old.pages ≤ writer.old.room }
    requires reader_room { length writer.old.pages + length reader.old.pages ≤ reader.old.room }
    ensures writer_stays { writer.new.room ≡ writer.old.room }
    ensures reader_stays { reader.new.room ≡ reader.old.room }
    ensures segments { (h : ℕ → ℕ → ℕ) → segment_sum h writer.new.pages + segment_sum h reader.new.pages
        ≡ segment_sum h writer.old.pages + segment_sum h reader.old.pages }
    ensures count { length writer.new.pages + length reader.new.pages
        ≡ length writer.old.pages + length reader.old.pages }
{
    'spent: while let Some(page) = reader.spent() {
        writer.give(page);
    }
    'full: while let Some(page) = taken(writer, all) {
        reader.give(page);
    }
}

// The writer's oldest page, if it is full or whatever it holds.
fn taken(writer: &mut PageWriter, all: bool) -> Option<Segment>
    ensures stays { writer.new.room ≡ writer.old.room }
    ensures segments { (h : ℕ → ℕ → ℕ) →
        segment_sum h writer.new.pages + segment_sum h (option_to_list result) ≡ segment_sum h writer.old.pages }
    ensures count { length writer.new.pages + length (option_to_list result)
        ≡ length writer.old.pages }
{
    if all { writer.last() } else { writer.full() }
}

// Appends a row, for which there is room.
fn put(rt: &impl Abort, writer: &mut PageWriter, row: &&[u8])
    requires { length row.now.now < 2 ^ 32 }
    ensures stays { writer.new.room ≡ writer.old.room }
    ensures segments { (h : ℕ → ℕ → ℕ) → segment_sum h writer.new.pages ≡ segment_sum h writer.old.pages }
    ensures count { length writer.new.pages ≡ length writer.old.pages }
{
    writer.append(row).expect(rt, "no room");
}

// Gives the pages back that were read, and ends the reader.
fn come_home(rt: &impl Abort, writer: &mut PageWriter, reader: PageReader)
    requires { length writer.old.pages + length reader.pages ≤ writer.old.room }
    ensures stays { writer.new.room ≡ writer.old.room }
    ensures segments { (h : ℕ → ℕ → ℕ) →
        segment_sum h writer.new.pages ≡ segment_sum h writer.old.pages + segment_sum h reader.pages }
{
    let mut reader = reader;
    'spent: while let Some(page) = reader.spent() {
        writer.give(page);
    }
    let (items, _room) = reader.end().into_items();
    assert!(rt; items.is_empty(), "the reader kept a page");
    items.destroy_empty();
}

// Reads rows from `done` on, as many as the reader has whole. How many were read then.
fn read_all(rt: &impl Abort, reader: &mut PageReader, rows: &[&[u8]], done: usize) -> usize
    ensures pages { reader.new.pages ≡ reader.old.pages }
    ensures room { reader.new.room ≡ reader.old.room }
{
    let mut done = done;
    'rows: while done < rows.len() {
        match next_shows(reader, rows[done]) {
            Some(same) => assert!(rt; same, "row {done} differs"),
            None => return done,
        }
        done += 1;
    }
    done
}

// Carries rows through a writer and a reader, page by page. At the end no row is under way.
fn carry(rt: &impl Abort, writer: &mut PageWriter, reader: &mut PageReader, rows: &[&[u8]])
    requires rows { All (λ row. length row.now < 2 ^ 32) rows.now }
    requires writer_room { length writer.old.pages + length reader.old.pages ≤ writer.old.room }
    requires reader_room { length writer.old.pages + length reader.old.pages ≤ reader.old.room }
    ensures writer_stays { writer.new.room ≡ writer.old.room }
    ensures reader_stays { reader.new.room ≡ reader.old.room }
    ensures segments { (h : ℕ → ℕ → ℕ) → segment_sum h writer.new.pages + segment_sum h reader.new.pages
        ≡ segment_sum h writer.old.pages + segment_sum h reader.old.pages }
    ensures count { length writer.new.pages + length reader.new.pages
        ≡ length writer.old.pages + length reader.old.pages }
{
    let mut done = 0;
    for row in rows {
        put(rt, writer, row);
        turn_over(writer, reader, false);
        done = read_all(rt, reader, rows, done);
    }
    turn_over(writer, reader, true);
    done = read_all(rt, reader, rows, done);
    assert_eq!(rt; done, rows.len());
    assert!(rt; next_shows(reader, &[]).is_none());
}

// The bytes from a place on, as many as there are, `len` at most.
fn cut(bytes: &[u8], from: usize, len: u16) -> &[u8]
    ensures { length result.now < 2 ^ 32 }
{
    let tail = &bytes[from.min(bytes.len())..];
    &tail[..usize::from(len).min(tail.len())]
}

// Carries rows of these lengths over 12 pages. All segments come home.
fn carry_lens(rt: &impl Abort, alloc: Global, lens: &[u16]) {
    let mut bytes = Vec::with_capacity(alloc, 17_000).expect(rt, "no memory");
    for i in 0..17_000u32 {
        bytes.push((i * 31 % 251) as u8).expect(rt, "no memory");
    }
    let mut rows = Vec::with_capacity(alloc, lens.len()).expect(rt, "no memory");
    for (n, len) in lens.iter().enumerate() {
        rows.push(cut(&bytes, n % 97, *len)).expect(rt, "no memory");
    }
    let mut pool = Pool::open(alloc, 12, 4_096).expect(rt, "no memory");
    let purse = pool.lease(12).expect(rt, "no memory");
    let empty = Purse::open(alloc, 12).expect(rt, "no memory");
    let mut writer = PageWriter::new(purse);
    let mut reader = PageReader::new(empty);
    carry(rt, &mut writer, &mut reader, &rows);
    come_home(rt, &mut writer, reader);
    pool.restore(writer.end());
    assert_eq!(rt; pool.free(), pool.total());
    pool.close();
}

#[test]
fn records_come_back_over_any_page_ends(rt: HostRuntime) {
    carry_lens(&rt, rt.alloc(), &[0, 1, 4_076, 4_077, 16_384, 0, 3]);
    // The page ends behind the length, and inside it.
    carry_lens(&rt, rt.alloc(), &[4_072, 5, 4_080]);
    carry_lens(&rt, rt.alloc(), &[4_074, 9, 4_073, 300, 0]);
}

#[test]
fn many_records_come_back_in_order(rt: HostRuntime) {
    let mut lens = Vec::with_capacity(rt.alloc(), 1_000).expect(&rt, "no memory");
    for n in 0..1_000u32 {
        lens.push((n * n * 7 % 1_201) as u16)
            .expect(&rt, "no memory");
    }
    carry_lens(&rt, rt.alloc(), &lens);
}
