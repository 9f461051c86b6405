// A place in the data that pieces name, as the copies between the windows pass over them.
ghost use Rattle.std.specs.Prelude.{◌≡◌, ◌+◌, ◌-◌, ◌^◌, ◌<◌, ◌≤◌, None, IfSome, length, min};
ghost use Rattle.srp_desc.specs.declared.pieces.TheConstants.{MAX_DATA_LEN};
ghost use Rattle.srp_desc.specs.Pieces.{sum_of};
ghost use Rattle.block_server.specs.Parts.{IsPartAt, IsPlacedAt, LiesAt, LiesIn};

use srp_iu::Desc;

/// As many bytes as one copy moves.
const MOST_BYTES: u32 = 65_536;

/// How far the data of pieces were copied.
#[derive(Clone, Copy, Debug, PartialEq, Eq)]
pub(crate) struct Cursor {
    /// The piece, and how many of its bytes were copied.
    piece: usize,
    inside: u32,
    /// How many bytes were copied in all.
    done: u32,
}

/// The next run of data that one copy moves.
#[derive(Clone, Copy, Debug, PartialEq, Eq)]
pub(crate) struct Part {
    /// The place of its first byte in the data.
    pub(crate) at: u32,
    /// The I/O address of its first byte; none where that is past every address.
    pub(crate) address: Option<u64>,
    /// The number of bytes, 1 to 65,536.
    pub(crate) len: u32,
    /// The place behind it.
    pub(crate) end: Cursor,
}

impl Cursor {
    /// Nothing was copied yet.
    pub(crate) fn start() -> Cursor
        ensures { result ≡ record { piece = 0; inside = 0; done = 0 } }
    {
        Cursor {
            piece: 0,
            inside: 0,
            done: 0,
        }
    }

    /// The number of bytes that were copied.
    pub(crate) fn done(self) -> u32
        ensures { result ≡ self.done }
    {
        self.done
    }

    /// The next run of the pieces' data, of which `limit` bytes are copied in all; none where they were.
    pub(crate) fn next(self, pieces: &[Desc], limit: u32) -> Option<Part>
        requires { limit ≤ MAX_DATA_LEN }
        ensures len { IfSome result (λ part. (1 ≤ part.len) × (part.len ≤ MOST_BYTES)) }
        ensures at { IfSome result (λ part. part.at ≡ self.done) }
        ensures end { IfSome result (λ part. part.end.done ≡ part.at + part.len) }
        ensures within { IfSome result (λ part. part.at + part.len ≤ limit) }
        ensures piece { IfSome result (λ part. LiesIn pieces.now part.address part.len) }
        ensures there { IsPlacedAt pieces.now self → IfSome result (λ part.
            LiesAt pieces.now part.at part.address part.len) }
        ensures part { IsPlacedAt pieces.now self → IfSome result (λ part.
            IsPartAt pieces.now limit part.at part.address part.len) }
        ensures placed { IsPlacedAt pieces.now self → IfSome result (λ part.
            IsPlacedAt pieces.now part.end) }
        ensures all { IsPlacedAt pieces.now self → result ≡ None →
            min limit (sum_of pieces.now) ≤ self.done }
    {
        let mut piece = self.piece;
        let mut inside = self.inside;
        while piece < pieces.len() {
            let desc = pieces[piece];
            let len = part_len(desc.len, inside, self.done, limit);
            if len > 0 {
                return Some(Part {
                    at: self.done,
                    address: desc.address.checked_add(u64::from(inside)),
                    len,
                    end: Cursor {
                        piece,
                        inside: inside + len,
                        done: self.done + len,
                    },
                });
            }
            piece += 1;
            inside = 0;
        }
        None
    }
}

// Tells how many bytes of a piece one copy moves next, where `done` of `limit` bytes were copied in all.
fn part_len(piece: u32, inside: u32, done: u32, limit: u32) -> u32
    ensures value { result ≡ min (min (piece - inside) (limit - done)) MOST_BYTES }
    ensures inside { 0 < result → inside + result ≤ piece }
    ensures fits { 0 < result → inside + result < 2 ^ 32 }
    ensures done { 0 < result → done + result ≤ limit }
{
    let left = piece.saturating_sub(inside);
    let wanted = limit.saturating_sub(done);
    left.min(wanted).min(MOST_BYTES)
}
