//! Bit lists that grow within their room.
ghost use Rattle.std.specs.Prelude.{◌≡◌, ◌+◌, ◌*◌, ◌^◌, ◌<◌, ◌≤◌, length};
ghost use Rattle.ml_key.specs.inside.Extension.{extend_list};
ghost use Rattle.ml_term.specs.Codes.{bits, byte_bits};

use ml_bits::Bits;

// Puts the `count` lowest bits of a number at the end of a list that has room for them, the highest
// of them first.
pub(crate) fn append(list: &mut Bits, value: u64, count: usize)
    requires count { count ≤ 64 }
    requires value { value < 2 ^ count }
    requires room { length list.old.bits + count ≤ list.old.room }
    ensures { list.new ≡ extend_list list.old (bits count value) }
{
    match list.push_bits(value, count) {
        Ok(()) => (),
        Err(_) => unreachable!(),
    }
}

// Puts the bits of some bytes at the end of a list that has room for them.
pub(crate) fn append_bytes(list: &mut Bits, bytes: &[u8])
    requires { length list.old.bits + 8 * length bytes.now ≤ list.old.room }
    ensures { list.new ≡ extend_list list.old (byte_bits bytes.now) }
{
    match list.push_bytes(bytes) {
        Ok(()) => (),
        Err(_) => unreachable!(),
    }
}
