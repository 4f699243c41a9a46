// A session opened and parked.
ghost use Rattle.std.specs.Prelude.{◌≡◌, length};
ghost use Rattle.spec_parking.specs.session_bytes.ByteCalls.{open_number, open_bytes};

// open's number: 0, 15 or 16; or 16 where fewer than 9,216 bytes are lent. With 0 the session stands at the start of `bytes`.
pub fn open(kind: u32, timescale: u32, map: &[u64], bytes: &mut [u8]) -> u32
    ensures value { result ≡ open_number kind timescale map.now (length bytes.old) }
    ensures bytes_after { bytes.new ≡ open_bytes kind timescale map.now bytes.old }
{
    let opened = session::open(kind, timescale, map);
    if opened.number != 0 {
        return opened.number;
    }
    refusals::number(parking::keep(opened.session, bytes))
}
