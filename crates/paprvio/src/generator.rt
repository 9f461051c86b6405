// The boot text of a seed: one server partition, and eight clients that write patterns and read them back.
ghost use Rattle.std.specs.Prelude.{◌≡◌, ◌++◌, ◌+◌, ◌*◌, ◌^◌, ◌%◌, ◌<◌, decimal, IfOk, OnOk};
ghost use Rattle.paprvio.specs.Generated.{after, client, clients, drawn, fill, blocks_in, bytes_in, command, generated, transfer, transfers};

use crate::draws::Draws;
use std::alloc::Global;
use vio_num::NoMemory;

/// The client partitions, and the transfers of each.
const CLIENTS: u32 = 8;

const TRANSFERS: u32 = 64;

/// The lines before the first client.
const HEAD: &[u8] = b"vio 1
rounds 4096
grant 8
partition
server 1
server 1
server 1
server 1
server 1
server 1
server 1
server 1
end
";

/// The boot text of a seed.
pub fn boot_text_of(alloc: Global, seed: u32) -> Result<Vec<u8>, NoMemory>
    ensures { IfOk result (λ text. text.items ≡ generated seed) }
{
    let mut text = Vec::from_slice(alloc, HEAD)?;
    let mut draws = Draws::of(seed);
    for number in 0..CLIENTS {
        put_client(&mut text, number, &mut draws)?;
    }
    Ok(text)
}

// Adds the partition of the client with this number.
fn put_client(text: &mut Vec<u8>, number: u32, draws: &mut Draws) -> Result<(), NoMemory>
    requires { number < CLIENTS }
    ensures text { OnOk result (text.new.items ≡ text.old.items ++ client number draws.old.last) }
    ensures draws { OnOk result (draws.new.last ≡ after TRANSFERS draws.old.last) }
{
    put(text, b"partition\nclient 0.")?;
    put_number(text, number)?;
    put(text, b" pages 64 queue 1\n0 login\n")?;
    put_transfers(text, number, draws)?;
    put(text, b"end\n")
}

// Adds the lines of its transfers.
fn put_transfers(text: &mut Vec<u8>, number: u32, draws: &mut Draws) -> Result<(), NoMemory>
    requires { number < CLIENTS }
    ensures text { OnOk result (text.new.items
        ≡ text.old.items ++ transfers TRANSFERS number draws.old.last) }
    ensures draws { OnOk result (draws.new.last ≡ after TRANSFERS draws.old.last) }
{
    for _transfer in 0..TRANSFERS {
        put_transfer(text, number, draws.draw())?;
    }
    Ok(())
}

// Adds the lines of the transfer that this draw says: it fills, writes, and reads back.
fn put_transfer(text: &mut Vec<u8>, number: u32, draw: u32) -> Result<(), NoMemory>
    requires { number < CLIENTS }
    ensures { OnOk result (text.new.items ≡ text.old.items ++ transfer number draw) }
{
    put_fill(text, draw)?;
    put_command(text, b"write", number, draw, b" 65536")?;
    put_command(text, b"read", number, draw, b" 98304")
}

// Adds the line that fills the data of a draw.
fn put_fill(text: &mut Vec<u8>, draw: u32) -> Result<(), NoMemory>
    ensures { OnOk result (text.new.items ≡ text.old.items ++ fill draw) }
{
    put(text, b"0 fill 65536 ")?;
    put_number(text, bytes_in(draw))?;
    put(text, b" ")?;
    put_number(text, draw / 256 % 256)?;
    put(text, b"\n")
}

// The blocks of a draw's transfer, 1 to 8.
fn blocks_in(draw: u32) -> u32
    ensures value { result ≡ blocks_in draw }
    ensures few { result < 9 }
{
    1 + draw / 4096 % 8
}

// The bytes of these blocks.
fn bytes_in(draw: u32) -> u32
    ensures { result ≡ bytes_in draw }
{
    512 * blocks_in(draw)
}

// Adds a command of a draw's transfer, and the line that takes its answer.
fn put_command(
    text: &mut Vec<u8>,
    word: &[u8],
    number: u32,
    draw: u32,
    address: &[u8],
) -> Result<(), NoMemory>
    requires { number < CLIENTS }
    ensures { OnOk result (text.new.items
        ≡ text.old.items ++ command word.now number draw address.now) }
{
    put(text, b"0 ")?;
    put(text, word)?;
    put(text, b" ")?;
    put_number(text, 64 * number + draw / 65_536 % 57)?;
    put(text, b" ")?;
    put_number(text, blocks_in(draw))?;
    put(text, address)?;
    put(text, b"\n0 take 1\n")
}

// Adds bytes.
fn put(text: &mut Vec<u8>, bytes: &[u8]) -> Result<(), NoMemory>
    ensures { OnOk result (text.new.items ≡ text.old.items ++ bytes.now) }
{
    text.extend_from_slice(bytes)?;
    Ok(())
}

// Adds a number in decimal.
fn put_number(text: &mut Vec<u8>, number: u32) -> Result<(), NoMemory>
    ensures { OnOk result (text.new.items ≡ text.old.items ++ decimal number) }
{
    let mut decimal = itoa::Buffer::new();
    text.extend_from_slice(decimal.format(number).as_bytes())?;
    Ok(())
}
