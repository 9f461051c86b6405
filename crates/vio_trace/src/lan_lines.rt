// The lines of what LAN ports do.
ghost use Rattle.std.specs.Prelude.{◌≡◌, ◌++◌, OnOk};
ghost use Rattle.vio_trace.specs.Form.{IsFrameLine, IsFrameRow, IsOfferRow, IsPortRow, IsPostRow, IsDeliverLine, IsDeliverRow, IsHarvestRow};
ghost use Rattle.vio_trace.specs.Text.{frame_line, frame_text, offer_text, port_text, post_text, deliver_line, deliver_text, harvest_text};

use crate::fitting::{bytes_fit, name_fits, pieces_fit, rows_fit};
use crate::lan_rows::{DeliverRow, FrameRow, HarvestRow, OfferRow, PortRow, PostRow};
use crate::lan_words::{put_filled, put_offered};
use crate::lines::{Lines, put_all};
use crate::window_lines::put_pieces;
use crate::words::{put, put_bytes, put_code, put_digits, put_head, put_name, put_number};
use vio_num::NoMemory;

// Writes the first line of a frame.
fn put_frame_line(buffer: &mut Vec<u8>, row: &FrameRow) -> Result<(), NoMemory>
    ensures { OnOk result (buffer.new.items ≡ buffer.old.items ++ frame_line row.now) }
{
    put_head(buffer, b"frame", row.unit, row.number)?;
    put_code(buffer, row.code)?;
    put_number(buffer, row.from.len() as u64)?;
    put_bytes(buffer, &row.bytes)?;
    put(buffer, b"\n")
}

impl Lines for FrameRow {
    ghost text = { frame_text };

    ghost in_range = { IsFrameRow };

    fn put(&self, buffer: &mut Vec<u8>) -> Result<(), NoMemory> {
        put_frame_line(buffer, self)?;
        put_pieces(buffer, b"from", self.from.as_slice())?;
        put_all(buffer, self.offers.as_slice())
    }

    fn fits(&self) {
        name_fits(self.unit);
        let _number = self.number;
        let _from_len = self.from.len();
        bytes_fit(self.bytes.as_slice());
        pieces_fit(self.from.as_slice());
        rows_fit(self.offers.as_slice());
    }
}

impl Lines for OfferRow {
    ghost text = { offer_text };

    ghost in_range = { IsOfferRow };

    fn put(&self, buffer: &mut Vec<u8>) -> Result<(), NoMemory> {
        put_head(buffer, b"offer", self.unit, self.number)?;
        put_name(buffer, self.port)?;
        put_offered(buffer, self.offered)?;
        put(buffer, b"\n")
    }

    fn fits(&self) {
        name_fits(self.unit);
        name_fits(self.port);
        let _number = self.number;
    }
}

impl Lines for PortRow {
    ghost text = { port_text };

    ghost in_range = { IsPortRow };

    fn put(&self, buffer: &mut Vec<u8>) -> Result<(), NoMemory> {
        put_head(buffer, b"port", self.unit, self.session)?;
        put_number(buffer, u64::from(self.slots))?;
        put_number(buffer, self.drops)?;
        put(buffer, b"\n")
    }

    fn fits(&self) {
        name_fits(self.unit);
        let _session = self.session;
        let _slots = self.slots;
        let _drops = self.drops;
    }
}

impl Lines for PostRow {
    ghost text = { post_text };

    ghost in_range = { IsPostRow };

    fn put(&self, buffer: &mut Vec<u8>) -> Result<(), NoMemory> {
        put_head(buffer, b"post", self.unit, self.session)?;
        put_number(buffer, self.number)?;
        put_digits(buffer, self.descriptor)?;
        put_digits(buffer, self.correlator)?;
        put(buffer, b"\n")
    }

    fn fits(&self) {
        name_fits(self.unit);
        let _session = self.session;
        let _number = self.number;
        let _descriptor = self.descriptor;
        let _correlator = self.correlator;
    }
}

// Writes the first line of a delivery.
fn put_deliver_line(buffer: &mut Vec<u8>, row: &DeliverRow) -> Result<(), NoMemory>
    ensures { OnOk result (buffer.new.items ≡ buffer.old.items ++ deliver_line row.now) }
{
    put_head(buffer, b"deliver", row.unit, row.session)?;
    put_number(buffer, row.post)?;
    put_name(buffer, row.sender)?;
    put_number(buffer, row.frame)?;
    put_filled(buffer, row.filled)?;
    put_number(buffer, row.to.len() as u64)?;
    put(buffer, b"\n")
}

impl Lines for DeliverRow {
    ghost text = { deliver_text };

    ghost in_range = { IsDeliverRow };

    fn put(&self, buffer: &mut Vec<u8>) -> Result<(), NoMemory> {
        put_deliver_line(buffer, self)?;
        put_pieces(buffer, b"to", self.to.as_slice())
    }

    fn fits(&self) {
        name_fits(self.unit);
        name_fits(self.sender);
        let _session = self.session;
        let _post = self.post;
        let _frame = self.frame;
        let _to_len = self.to.len();
        pieces_fit(self.to.as_slice());
    }
}

impl Lines for HarvestRow {
    ghost text = { harvest_text };

    ghost in_range = { IsHarvestRow };

    fn put(&self, buffer: &mut Vec<u8>) -> Result<(), NoMemory> {
        put_head(buffer, b"harvest", self.unit, self.session)?;
        put_digits(buffer, self.high)?;
        put_digits(buffer, self.low)?;
        put(buffer, b"\n")
    }

    fn fits(&self) {
        name_fits(self.unit);
        let _session = self.session;
        let _high = self.high;
        let _low = self.low;
    }
}
