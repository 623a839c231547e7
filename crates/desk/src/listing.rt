// A graph in text: R, N and entry, then each node's number and six words.
#![tactic(auto, using(text::proofs::Writing::appended_then, text::proofs::Decimals::spaced_then, crate::proofs::Rows::rows_more), unfolding(crate::specs::Listing::row_line, crate::specs::Listing::row_lines, crate::specs::Listing::listing))]

ghost use Rattle.std.specs.Prelude.{◌+◌, ◌*◌, ◌≤◌, ◌≡◌, [], ◌∷◌, ◌++◌, length};
ghost use Rattle.text.specs.Decimals.{decimal, spaced};
ghost use Rattle.text.specs.Places.{appended};
ghost use Rattle.desk.specs.Lines.{line};
ghost use Rattle.desk.specs.Listing.{row_line, row_lines};
ghost use Rattle.desk.specs.Listing.{listing as listing_text};

use crate::lines::pair;
use graph::Header;
use text::Text;

// The first line.
fn header(out: &mut Text, h: Header)
    ensures { out.new ≡ appended out.old (line (decimal h.registers ++ spaced (h.nodes ∷ h.entry ∷ []))) }
{
    out.number(h.registers);
    pair(out, h.nodes, h.entry);
    out.byte(b'\n');
}

// The line of a node.
fn row(out: &mut Text, table: &[u32], n: usize)
    requires { 6 * n + 6 ≤ length table.now }
    ensures { out.new ≡ appended out.old (row_line table.now n) }
{
    out.number(n);
    out.spaced(&table[6 * n..6 * n + 6]);
    out.byte(b'\n');
}

// The whole listing of a graph whose nodes are in the table.
pub fn listing(out: &mut Text, h: Header, table: &[u32])
    requires { 6 * h.nodes ≤ length table.now }
    ensures { out.new ≡ appended out.old (listing_text h table.now) }
{
    header(out, h);
    for n in 0..h.nodes {
        row(out, table, n);
    }
}
