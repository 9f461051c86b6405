// The disk that a server serves: an image with the number of its blocks, and room for the data of one command.
ghost use Rattle.std.specs.Prelude.{◌≡◌, ◌≤◌, IfOk, IfErr, length, option_map, take};
ghost use Rattle.srp_desc.specs.declared.pieces.TheConstants.{MAX_DATA_LEN};
ghost use Rattle.block_disk.specs.Cdb.{command_of};
ghost use Rattle.block_disk.specs.Disk.{MakesCalls, device_calls, reply_to, step};
ghost use Rattle.block_disk.specs.Steps.{StepOn, made_step};

use block_disk::{ScsiReply, execute};
use srp_desc::MAX_DATA_LEN;
use std::alloc::Global;
use vio_io::Blocks;
use vio_num::NoMemory;

/// An image of blocks and their number, with room for the data-in of one command.
#[derive(Drop)]
pub(crate) struct Disk<B: Blocks> {
    image: B,
    count: u64,
    given: Vec<u8>,
    ghost sized: { count ≡ (B.state image).size },
    ghost room: { length given.items ≡ MAX_DATA_LEN },
}

impl<B: Blocks> Disk<B> {
    /// The disk of an image, whose `count` gives this number of blocks. Want of memory hands the image back.
    pub(crate) fn open(alloc: Global, image: B, count: u64) -> Result<Disk<B>, B>
        requires { count ≡ (B.state image).size }
        ensures image { IfOk result (λ disk. disk.image ≡ image) }
        ensures count { IfOk result (λ disk. disk.count ≡ count) }
        ensures err { IfErr result (λ back. back ≡ image) }
    {
        match room(alloc, MAX_DATA_LEN as usize) {
            Ok(given) => Ok(Disk {
                image,
                count,
                given,
            }),
            Err(NoMemory) => Err(image),
        }
    }

    /// Executes a command that came to a logical unit with these data-out.
    pub(crate) fn execute(&mut self, lun: u64, cdb: &[u8; 16], data_out: &[u8]) -> ScsiReply
        ensures reply { result ≡
            reply_to self.old.count lun cdb.now (length data_out.now) result.fault }
        ensures step { StepOn (B.state self.old.image).blocks
            (made_step lun cdb.now data_out.now result self.new.given.items)
            (B.state self.new.image).blocks }
        ensures image { (B.state self.new.image).blocks ≡
            option_map (λ all. (step all lun cdb.now data_out.now result.fault).blocks)
            (B.state self.old.image).blocks }
        ensures room { result.in_len ≤ MAX_DATA_LEN }
        ensures used { result.out_used ≤ length data_out.now }
        ensures count { self.new.count ≡ self.old.count }
        ensures device { MakesCalls (command_of cdb.now)
            (device_calls self.old.count lun cdb.now (length data_out.now)) result.fault
            (B.state self.old.image) (B.state self.new.image) }
    {
        execute_into(
            &mut self.image,
            self.count,
            lun,
            cdb,
            data_out,
            &mut self.given,
        )
    }

    /// The first bytes of the data-in that the last command gave.
    pub(crate) fn given(&self, len: usize) -> &[u8]
        requires { len ≤ MAX_DATA_LEN }
        ensures { result.now ≡ take len self.now.given.items }
    {
        &self.given[..len]
    }

    /// The image alone.
    pub(crate) fn into_image(self) -> B
        ensures { result ≡ self.image }
    {
        let Disk {
            image,
            count: _,
            given: _,
        } = self;
        image
    }
}

// Executes a command on the image, with these 131,072 bytes as room for data-in.
fn execute_into<B: Blocks>(
    image: &mut B,
    count: u64,
    lun: u64,
    cdb: &[u8; 16],
    data_out: &[u8],
    given: &mut [u8],
) -> ScsiReply
    requires count { count ≡ (B.state image.old).size }
    requires room { length given.old ≡ MAX_DATA_LEN }
    ensures reply { result ≡ reply_to count lun cdb.now (length data_out.now) result.fault }
    ensures step { StepOn (B.state image.old).blocks
        (made_step lun cdb.now data_out.now result given.new) (B.state image.new).blocks }
    ensures image { (B.state image.new).blocks ≡
        option_map (λ all. (step all lun cdb.now data_out.now result.fault).blocks)
        (B.state image.old).blocks }
    ensures room { result.in_len ≤ MAX_DATA_LEN }
    ensures used { result.out_used ≤ length data_out.now }
    ensures device { MakesCalls (command_of cdb.now)
        (device_calls count lun cdb.now (length data_out.now)) result.fault
        (B.state image.old) (B.state image.new) }
{
    match given.as_mut_array::<131072>() {
        Some(data_in) => execute(image, count, lun, cdb, data_out, data_in),
        None => unreachable!(),
    }
}

// Makes room for so many bytes.
fn room(alloc: Global, len: usize) -> Result<Vec<u8>, NoMemory>
    ensures { IfOk result (λ room. length room.items ≡ len) }
{
    Ok(vec![in alloc; 0; len]?)
}
