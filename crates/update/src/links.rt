// The links.
ghost use Rattle.std.specs.Prelude.{◌≡◌, ◌<◌, length};
ghost use Rattle.numbers.specs.Numbers.{link_count};
ghost use Rattle.tables.specs.Places.{table_size};
ghost use Rattle.update.specs.Written.{link_written};

use codes::mark_of;
use rules::Link;
use tables::fields::{
    LINK_ANSWERING_AT, LINK_ASKING_AT, LINK_EXPIRY_AT, LINK_ID_AT, LINK_PROVED_AT,
    LINK_REMAINING_AT, LINK_TAKEN_AT,
};
use tables::places::{LINK_WIDTH, LINKS_AT, TIME_WIDTH};

// Puts a link at a place.
pub fn put_link(tables: &mut [u8], place: usize, link: Link)
    requires { (length tables.old ≡ table_size) × (place < link_count) }
    ensures { tables.new ≡ link_written tables.old place link }
{
    let at = LINKS_AT + LINK_WIDTH * place;
    octets::set_at(tables, at, 1);
    octets::copy_at(tables, at + LINK_ID_AT, &link.id);
    octets::set_at(tables, at + LINK_ASKING_AT, link.asking);
    octets::set_at(tables, at + LINK_ANSWERING_AT, link.answering);
    octets::set_at(tables, at + LINK_TAKEN_AT, link.taken.0);
    octets::set_at(tables, at + LINK_REMAINING_AT, link.remaining.0);
    octets::set_at(tables, at + LINK_PROVED_AT, mark_of(link.proved));
    octets::write_number_at(tables, at + LINK_EXPIRY_AT, TIME_WIDTH, link.expiry);
}
