// The end of the sharing of a window: the plain window of all that its seats did.
ghost use Rattle.std.specs.Prelude.{◌≡◌, ℕ, None, IfOk, IfErr, length};
ghost use Rattle.tce_window.specs.Window.{strokes_at};
ghost use Rattle.shared_window.specs.Closing.{AreAllSeats, ClosesWindow, strokes_listed};

use crate::guest::Guest;
use crate::owner::Owner;
use crate::parting::Parts;
use crate::seat::WindowSeat;
use crate::window::Window;
use page_slots::{Page, PagesBack};
use tce_window::{PlainWindow, Region};

/// There was no memory to close the window. It, its owner and its guests are as before.
#[derive(Drop)]
pub struct WindowBack {
    pub window: Window,
    pub owner: Owner,
    pub guests: Vec<Guest>,
}

impl Window {
    /// Ends the sharing: the plain window of the strokes that all seats laid and of the values that the owner
    /// put, with the owner's count of words read in use. It needs all seats, none holding. Where there is no
    /// memory all come back as they were.
    pub fn close(self, owner: Owner, mut guests: Vec<Guest>) -> Result<PlainWindow, WindowBack>
        requires { AreAllSeats self owner guests.items }
        ensures ok { IfOk result (ClosesWindow self owner guests.items) }
        ensures back { IfErr result (λ back. (back.window ≡ self) × (back.owner ≡ owner)
            × (back.guests.items ≡ guests.items)) }
    {
        let Ok(mut parts) = Parts::with_room(self.alloc, guests.len()) else {
            return Err(WindowBack {
                window: self,
                owner,
                guests,
            });
        };
        parts.part(&mut guests);
        let Owner { seat, table } = owner;
        parts.places.push_reserved(seat.pages);
        match self.pages.close(parts.places) {
            Ok(list) => {
                self.entries.close(seat.entries, parts.holders);
                let region = put_all(seat.region, list);
                Ok(PlainWindow::of_parts(self.alloc, self.unit, table, region, seat.in_use))
            }
            Err(PagesBack { pages, mut seats }) => {
                let Some(place) = seats.pop() else {
                    unreachable!()
                };
                let parts = Parts {
                    places: seats,
                    ..parts
                };
                parts.rejoin(&mut guests);
                let seat = WindowSeat {
                    pages: place,
                    ..seat
                };
                Err(WindowBack {
                    window: Window { pages, ..self },
                    owner: Owner { seat, table },
                    guests,
                })
            }
        }
    }
}

// Puts the pages into their places, each at its number. All places are empty.
fn put_all(mut region: Region, list: Vec<Page>) -> Region
    requires size { length region ≡ length list.items }
    requires away { (p : ℕ) → strokes_at region p ≡ None }
    ensures strokes { (p : ℕ) → strokes_at result p ≡ strokes_listed list.items p }
    ensures size { length result ≡ length region }
{
    let _size = region.size();
    let mut number = 0;
    for page in list {
        region.put_page(number, page);
        number += 1;
    }
    region
}
