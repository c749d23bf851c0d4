// Records and nodes by place with the bytes that they lie in, a file's and those of an answer area alike.
ghost use Rattle.std.specs.Prelude.{◌+◌, ◌*◌, ◌≤◌, length};
ghost use Rattle.ast.specs.NamesIn.{NamesLie};
ghost use Rattle.ast.specs.NodesIn.{NodesLie};
ghost use Rattle.ast.specs.RecordsIn.{RecordsLie};

use super::kinds::{NoKind, NodeKind};
use super::layout::{NAME_WORDS, NODE_KIND, NODE_WORDS};
use super::sections::{Nodes, Records, record_word};

// Nodes by place with the bytes that they lie in. They are apart from `Section`, since they are a file's or an area's.
// A word comes as it stands, to be written again, or as an index.
#[derive(Clone, Copy)]
pub struct NodeView<'a> {
    pub bytes: &'a [u8],
    pub nodes: Nodes,
    pub ghost lie: { NodesLie nodes bytes.now },
}

// Records by place with the bytes that they lie in. The width is a field, where `Section` has it in its type: one
// test (`stmt_fits`) serves a file's statements and an area's, which have words behind those of the file.
#[derive(Clone, Copy)]
pub struct RecordView<'a> {
    pub bytes: &'a [u8],
    pub records: Records,
    pub ghost lie: { RecordsLie records bytes.now },
}

// A section of a file: `count` records of WIDTH words from byte `at` on.
// Whole bytes and a start, as the definition has it (`section`), whose places are the file's.
#[derive(Clone, Copy)]
pub struct Section<'a, const WIDTH: usize> {
    pub bytes: &'a [u8],
    pub at: usize,
    pub count: usize,
    pub ghost lie: { at + 4 * WIDTH * count ≤ length bytes.now },
}

// Names that pass, in a text of the first `size` bytes.
// The text is the front of the same bytes, so its length says it.
#[derive(Clone, Copy)]
pub struct Names<'a> {
    pub section: Section<'a, NAME_WORDS>,
    pub size: usize,
    pub ghost lie: { NamesLie section.bytes.now section.at section.count size },
}

impl NodeView<'_> {
    ghost use Rattle.std.specs.Prelude.{◌≡◌, [], ◌+◌, ◌^◌, ◌<◌, eqb, get_or};
    ghost use Rattle.ast.specs.Words.{word_of};
    ghost use Rattle.ast.specs.FileNumbers.{node_length};
    ghost use Rattle.ast.specs.Nodes.{kind_at};
    ghost use Rattle.ast.specs.Kinds.{ReadAs, node_number};
    ghost use Rattle.ast.specs.Views.{nodes_seen};

    // Word k of node i: as it stands, and as an index.
    pub fn field(&self, i: usize, k: usize) -> u32
        requires { (i < self.now.nodes.count)
            × (k < node_length) }
        ensures { result ≡ word_of (get_or (nodes_seen self.now) i []) k }
    {
        record_word(
            self.bytes,
            self.nodes.at,
            NODE_WORDS,
            self.nodes.count,
            i,
            k,
        )
    }

    pub fn word(&self, i: usize, k: usize) -> usize
        requires { (i < self.now.nodes.count)
            × (k < node_length) }
        ensures { (result ≡ word_of (get_or (nodes_seen self.now) i []) k)
            × (result < 2 ^ 32) }
    {
        self.field(i, k) as usize
    }

    // Whether node i is of a kind.
    // One comparison with the kind's number: reading the kind and comparing that is two steps, and no plainer.
    pub fn is(&self, i: usize, kind: NodeKind) -> bool
        requires { i < self.now.nodes.count }
        ensures { result ≡ eqb (kind_at (nodes_seen self.now) i) (node_number kind) }
    {
        self.word(i, NODE_KIND) == kind as usize
    }

    // The kind of node i, unless its word is no kind's.
    pub fn kind(&self, i: usize) -> Result<NodeKind, NoKind>
        requires { i < self.now.nodes.count }
        ensures { ReadAs node_number (kind_at (nodes_seen self.now) i) result }
    {
        NodeKind::try_from(self.word(i, NODE_KIND))
    }
}

impl RecordView<'_> {
    ghost use Rattle.std.specs.Prelude.{◌≡◌, ◌^◌, ◌<◌};
    ghost use Rattle.ast.specs.Words.{word_of};
    ghost use Rattle.ast.specs.Views.{record_seen};

    // Word k of record i, as an index.
    pub fn word(&self, i: usize, k: usize) -> usize
        requires { (i < self.now.records.count)
            × (k < self.now.records.width) }
        ensures { (result ≡ word_of (record_seen self.now i) k)
            × (result < 2 ^ 32) }
    {
        let rs = self.records;
        record_word(self.bytes, rs.at, rs.width, rs.count, i, k) as usize
    }
}

impl<const WIDTH: usize> Section<'_, WIDTH> {
    ghost use Rattle.std.specs.Prelude.{◌≡◌, [], ◌^◌, ◌<◌, get_or};
    ghost use Rattle.ast.specs.Words.{word_of, section};

    // Word k of record i.
    pub fn word(&self, i: usize, k: usize) -> usize
        requires { (i < self.now.count)
            × (k < WIDTH) }
        ensures { (result ≡ word_of (get_or (section WIDTH self.now.count self.now.at self.now.bytes.now) i []) k)
            × (result < 2 ^ 32) }
    {
        record_word(self.bytes, self.at, WIDTH, self.count, i, k) as usize
    }
}
