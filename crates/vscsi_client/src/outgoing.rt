// The requests that are outstanding, and the pages that they have.
ghost use Rattle.std.specs.Prelude.{◌≡◌};
ghost use Rattle.vscsi_client.specs.Spans.{meets, has_page_of, shares, first_sharing};
ghost use Rattle.vscsi_client.specs.Sending.{request_of, task_of};
ghost use Rattle.vscsi_client.specs.Taking.{slot_of};

use crate::op::Op;

/// Pages of the region, from the first one up to `end`, which is not among them.
#[derive(Clone, Copy, Debug, Default, PartialEq, Eq)]
pub struct Span {
    pub first: u64,
    pub end: u64,
}

/// A command or a task that is outstanding.
#[derive(Clone, Copy, Debug, Default, PartialEq, Eq)]
pub struct Outgoing {
    pub tag: u64,
    /// The number of the slot in which its information unit lies.
    pub slot: u64,
    /// The pages of its data, and those of its table.
    pub pages: Span,
    pub table: Span,
}

impl Span {
    /// Whether the two have a page in common.
    pub(crate) fn meets(self, other: Span) -> bool
        ensures { result ≡ meets self other }
    {
        self.first < other.end && other.first < self.end
    }
}

impl Outgoing {
    /// The command with this tag, whose unit lies in this slot.
    pub(crate) fn of(op: &Op, tag: u64, slot: u64) -> Outgoing
        ensures { result ≡ request_of op.now tag slot }
    {
        Outgoing {
            tag,
            slot,
            pages: op.data_span(),
            table: op.table_span(),
        }
    }

    /// The task with this tag, which has no pages.
    pub(crate) fn of_task(tag: u64, slot: u64) -> Outgoing
        ensures { result ≡ task_of tag slot }
    {
        Outgoing {
            tag,
            slot,
            pages: Span { first: 0, end: 0 },
            table: Span { first: 0, end: 0 },
        }
    }

    // Tells whether the request has a page of the span.
    fn has_page_of(&self, span: Span) -> bool
        ensures { result ≡ has_page_of span self.now }
    {
        self.pages.meets(span) || self.table.meets(span)
    }

    // Tells whether it has a page of one of the two.
    fn shares(&self, pages: Span, table: Span) -> bool
        ensures { result ≡ shares pages table self.now }
    {
        self.has_page_of(pages) || self.has_page_of(table)
    }
}

/// The tag of the oldest of these requests that has a page of the command's data or table.
pub(crate) fn first_sharing(outgoing: &[Outgoing], op: &Op) -> Option<u64>
    ensures { result ≡ first_sharing op.now outgoing.now }
{
    let pages = op.data_span();
    let table = op.table_span();
    outgoing
        .iter()
        .find(|request| request.shares(pages, table))
        .map(|request| request.tag)
}

/// The slot of the request with this tag.
pub(crate) fn slot_of(outgoing: &[Outgoing], tag: u64) -> Option<u64>
    ensures { result ≡ slot_of tag outgoing.now }
{
    outgoing
        .iter()
        .find(|request| request.tag == tag)
        .map(|request| request.slot)
}
