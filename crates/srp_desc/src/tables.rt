// The tables that a command leaves to be fetched.
ghost use Rattle.std.specs.Prelude.{◌≡◌, ◌++◌, ◌≤◌, ◌+◌, None, Some, IfOk, OnOk, IfErr};
ghost use Rattle.arrayvec.specs.ArrayVec.{array_vec_len};
ghost use Rattle.srp_desc.specs.Pieces.{refusal};
ghost use Rattle.srp_desc.specs.Tables.{command_refusal, tables_of, tables_to_fetch};

use crate::pieces::{DescFault, Pieces, pieces_of};
use arrayvec::ArrayVec;
use srp_iu::{Buffer, Cmd, Desc};

/// The tables that a command leaves to be fetched: where each lies, and its length in bytes. Data-out's stands
/// before data-in's; a buffer that has all of its table has none here.
///
/// Both buffers are judged, data-out first; the command is refused where one of them is by itself.
pub fn tables_to_fetch(command: &Cmd) -> Result<ArrayVec<Desc, 2>, DescFault>
    ensures ok { IfOk result (λ tables. tables.items ≡ tables_to_fetch command.now) }
    ensures unrefused { OnOk result (command_refusal command.now ≡ None) }
    ensures err { IfErr result (λ fault. command_refusal command.now ≡ Some fault) }
{
    let mut tables = ArrayVec::new();
    add_table(&mut tables, &command.out)?;
    add_table(&mut tables, &command.inn)?;
    Ok(tables)
}

// Adds the buffer's table, if it is to be fetched.
fn add_table(tables: &mut ArrayVec<Desc, 2>, buffer: &Buffer) -> Result<(), DescFault>
    requires { array_vec_len tables.old + 1 ≤ 2 }
    ensures ok { OnOk result (tables.new.items ≡ tables.old.items ++ tables_of buffer.now) }
    ensures len { OnOk result (array_vec_len tables.new ≤ array_vec_len tables.old + 1) }
    ensures unrefused { OnOk result (refusal buffer.now ≡ None) }
    ensures err { IfErr result (λ fault. refusal buffer.now ≡ Some fault) }
{
    match pieces_of(buffer)? {
        Pieces::Whole(_) => {}
        Pieces::Fetch { table, .. } => tables.push(table),
    }
    Ok(())
}
