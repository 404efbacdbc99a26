// The machine for C and for what links like C. include/malquindo.h declares these functions. Every function takes any bytes; what it
// writes must not overlap anything else that it is lent. Each one calls the function of malquindo with its name.
#![tactic(auto)]

ghost use Rattle.std.specs.Prelude.{◌≡◌, length};
ghost use Rattle.store_certificates.specs.Certificates.{located};
ghost use Rattle.objects_extensions.specs.Read.{read_rights, read_rights_into};
ghost use Rattle.objects_stamp.specs.Read.{read_stamp, read_stamp_into};
ghost use Rattle.store_index.specs.Index.{build, build_into, extend, extend_into, measure};
ghost use Rattle.store_move.specs.Moving.{move_card, move_card_into};
ghost use Rattle.malquindo.specs.Face.{move_result, open_result, open_session, called_as, called, called_cut_as, called_cut, file_result, certificate_result, index_result, stamp_result, rights_result};

// How many bytes a session has.
#[unsafe(no_mangle)]
pub extern "C" fn malquindo_session_len() -> usize
    ensures { result ≡ 1054 }
{
    malquindo::malquindo_session_len()
}

// Opens a session with the rights of three certificates.
#[unsafe(no_mangle)]
pub extern "C" fn malquindo_open(rights: &[u8], session: &mut [u8]) -> u64
    ensures { (result ≡ open_result rights.now session.old) × (session.new ≡ open_session rights.now session.old) }
{
    malquindo::malquindo_open(rights, session)
}

// One command.
#[unsafe(no_mangle)]
pub extern "C" fn malquindo_command(
    image: &mut [u8],
    session: &mut [u8],
    command: &[u8],
    response: &mut [u8],
) -> u64
    ensures { called_as result image.new session.new response.new ≡ called image.old session.old command.now response.old }
{
    malquindo::malquindo_command(image, session, command, response)
}

// What a cut behind so many stores leaves of the image.
#[unsafe(no_mangle)]
pub extern "C" fn malquindo_cut(
    image: &mut [u8],
    session: &[u8],
    command: &[u8],
    stores: usize,
) -> u64
    ensures { called_cut_as result image.new ≡ called_cut image.old session.now command.now stores }
{
    malquindo::malquindo_cut(image, session, command, stores)
}

// Moves a card to other rooms, into a target of its own.
#[unsafe(no_mangle)]
pub extern "C" fn malquindo_move(old: &[u8], list: &[u8], target: &mut [u8]) -> u64
    ensures { (result ≡ move_result (move_card old.now list.now (length target.old))) × (target.new ≡ move_card_into old.now list.now target.old) }
{
    malquindo::malquindo_move(old, list, target)
}

// Where the body of a file stands in a card image.
#[unsafe(no_mangle)]
pub extern "C" fn malquindo_file(image: &[u8], kind: u16) -> u64
    ensures { result ≡ file_result image.now kind }
{
    malquindo::malquindo_file(image, kind)
}

// Where the certificate stands that a stamp's reference names: in the card's body, or in the desk's.
#[unsafe(no_mangle)]
pub extern "C" fn malquindo_certificate(card: &[u8], desk: &[u8], reference: u8) -> u64
    ensures { result ≡ certificate_result (located card.now desk.now reference) }
{
    malquindo::malquindo_certificate(card, desk, reference)
}

// Builds an index of the records of a file's body.
#[unsafe(no_mangle)]
pub extern "C" fn malquindo_index_build(kind: u16, body: &[u8], places: &mut [u32]) -> u64
    ensures { (result ≡ index_result (build kind body.now places.old)) × (places.new ≡ build_into kind body.now places.old) }
{
    malquindo::malquindo_index_build(kind, body, places)
}

// Extends an index of n places after an append.
#[unsafe(no_mangle)]
pub extern "C" fn malquindo_index_extend(
    kind: u16,
    body: &[u8],
    places: &mut [u32],
    n: usize,
) -> u64
    ensures { (result ≡ index_result (extend kind body.now places.old n)) × (places.new ≡ extend_into kind body.now places.old n) }
{
    malquindo::malquindo_index_extend(kind, body, places, n)
}

// The length of the record of a number, by its place in an index.
#[unsafe(no_mangle)]
pub extern "C" fn malquindo_index_read(body: &[u8], places: &[u32], number: usize) -> u64
    ensures { result ≡ index_result (measure body.now places.now number) }
{
    malquindo::malquindo_index_read(body, places, number)
}

// Reads a record as a stamp: the places of its fields, or its first fault.
#[unsafe(no_mangle)]
pub extern "C" fn malquindo_stamp_read(record: &[u8], places: &mut [u32]) -> u64
    ensures { (result ≡ stamp_result (read_stamp «record».now places.old)) × (places.new ≡ read_stamp_into «record».now places.old) }
{
    malquindo::malquindo_stamp_read(record, places)
}

// Reads the rights of three certificates from their extensions: the bytes that an opening takes.
#[unsafe(no_mangle)]
pub extern "C" fn malquindo_rights(
    first: &[u8],
    second: &[u8],
    third: &[u8],
    rights: &mut [u8],
) -> u64
    ensures { (result ≡ rights_result (read_rights first.now second.now third.now rights.old)) × (rights.new ≡ read_rights_into first.now second.now third.now rights.old) }
{
    malquindo::malquindo_rights(first, second, third, rights)
}
