//! The words of the command line, and what they want to be run.

ghost use Rattle.std.specs.Prelude.{◌≤◌, length, IfSome, OnSome};

/// How large a node is, and how many calls of each kind are made on it.
#[derive(Clone, Copy, Drop)]
pub struct NodeSize {
    pub pairs: u32,
    pub calls: u32,
    ghost some: { 1 ≤ pairs },
    ghost few: { pairs ≤ 1048576 },
}

/// How large an export is, and how many calls of each kind are made on it, or writes on its journal.
#[derive(Clone, Copy, Drop)]
pub struct FilesSize {
    pub files: u32,
    /// Of all files together.
    pub blocks: u32,
    pub calls: u32,
    ghost some_files: { 1 ≤ files },
    ghost no_fewer_blocks: { files ≤ blocks },
}

/// How many threads there are, and how many events each of them adds to a book.
#[derive(Clone, Copy, Drop)]
pub struct BookSize {
    pub threads: usize,
    pub events: u64,
    ghost some: { 1 ≤ threads },
    ghost few: { threads ≤ 64 },
}

/// What is to be run, and whether times are told.
#[derive(Clone, Copy, Drop)]
pub struct BenchPlan {
    pub node: Option<NodeSize>,
    pub export: Option<FilesSize>,
    pub journal: Option<FilesSize>,
    pub book: Option<BookSize>,
    pub times: bool,
}

/// A number from 1 to `most`.
fn number(word: &str, most: u32) -> Option<u32>
    ensures least { IfSome result (λ n. 1 ≤ n) }
    ensures most { IfSome result (λ n. n ≤ most) }
{
    match word.parse::<u32>() {
        Ok(number) if 1 <= number && number <= most => Some(number),
        _ => None,
    }
}

/// The size that the first three words give, where they order a node, and the words after them.
fn node_size(words: &[String]) -> Option<(NodeSize, &[String])>
    ensures { OnSome result (3 ≤ length words.now) }
{
    let [command, pairs, calls, rest @ ..] = words else {
        return None;
    };
    if command.as_str() != "node" {
        return None;
    }
    let pairs = number(pairs.as_str(), 1_048_576)?;
    let calls = number(calls.as_str(), 1_048_576)?;
    Some((NodeSize { pairs, calls }, rest))
}

/// The size that the first four words give, where the first is `order`, and the words after them.
fn files_size<'a>(order: &str, words: &'a [String]) -> Option<(FilesSize, &'a [String])>
    ensures { OnSome result (4 ≤ length words.now) }
{
    let [command, files, blocks, calls, rest @ ..] = words else {
        return None;
    };
    if command.as_str() != order {
        return None;
    }
    // With 255 directories these are 65,535 objects, and there is room for one more.
    let files = number(files.as_str(), 65_280)?;
    let blocks = number(blocks.as_str(), 16_777_216)?;
    let calls = number(calls.as_str(), 1_048_576)?;
    if blocks < files {
        return None;
    }
    let size = FilesSize {
        files,
        blocks,
        calls,
    };
    Some((size, rest))
}

/// The size that the first three words give, where they order a book, and the words after them.
fn book_size(words: &[String]) -> Option<(BookSize, &[String])>
    ensures { OnSome result (3 ≤ length words.now) }
{
    let [command, threads, events, rest @ ..] = words else {
        return None;
    };
    if command.as_str() != "book" {
        return None;
    }
    let threads = number(threads.as_str(), 64)? as usize;
    let events = events.as_str().parse::<u64>().ok()?;
    Some((BookSize { threads, events }, rest))
}

/// The size that was found, if any, and the words after it, or all of them.
fn split<'a, T: Copy + Drop>(
    found: Option<(T, &'a [String])>,
    words: &'a [String],
) -> (Option<T>, &'a [String]) {
    match found {
        Some((size, rest)) => (Some(size), rest),
        None => (None, words),
    }
}

/// Whether the words behind all that is ordered want times, where they are understood.
fn times(words: &[String]) -> Option<bool> {
    match words {
        [] => Some(false),
        [word] if word.as_str() == "times" => Some(true),
        _ => None,
    }
}

/// What the words after the program's name want to be run, where they are understood.
pub fn plan_of(words: &[String]) -> Option<BenchPlan> {
    let (node, rest) = split(node_size(words), words);
    let (export, rest) = split(files_size("export", rest), rest);
    let (journal, rest) = split(files_size("journal", rest), rest);
    let (book, rest) = split(book_size(rest), rest);
    if rest.len() == words.len() {
        return None;
    }
    let times = times(rest)?;
    Some(BenchPlan {
        node,
        export,
        journal,
        book,
        times,
    })
}
