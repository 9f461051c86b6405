// What the definition of pieces says of itself. Each law is a function that does nothing; a caller
// calls it where the law is needed.
ghost use Rattle.std.specs.Prelude.{◌≡◌, ◌≤◌, ℕ, List};
ghost use Rattle.srp_desc.specs.declared.pieces.TheConstants.{MAX_DATA_LEN};
ghost use Rattle.srp_iu.specs.declared.buffer.Desc.{Desc};
ghost use Rattle.srp_iu.specs.declared.buffer.Buffer.{Buffer};
ghost use Rattle.srp_desc.specs.Pieces.{IsToFetch, descs_in, named, pieces, sum_of, summing_to, total_of};

/// Where a buffer leaves its table to be fetched, what the table's bytes name is what the buffer
/// names.
pub fn fetched_table_is_read()
    ensures { (buffer : Buffer) (table : Desc) (total : ℕ) (bytes : List ℕ) →
        IsToFetch buffer table total → pieces buffer bytes ≡ summing_to total (descs_in bytes) }
{}

/// The pieces that a buffer names are as many bytes in all as the buffer says, and at most 131,072.
pub fn named_pieces_sum_up()
    ensures sum { (buffer : Buffer) (bytes : List ℕ) (list : List Desc) →
        pieces buffer bytes ≡ named list → sum_of list ≡ total_of buffer }
    ensures small { (buffer : Buffer) (bytes : List ℕ) (list : List Desc) →
        pieces buffer bytes ≡ named list → sum_of list ≤ MAX_DATA_LEN }
{}
