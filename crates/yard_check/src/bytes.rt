// Bytes compared.
ghost use Rattle.std.specs.Prelude.{◌≡◌, not, ◌&&◌, leb, length, take};
ghost use Rattle.yard_check.specs.Bytes.{same_bytes};

pub fn same_bytes(a: &[u8], b: &[u8]) -> bool
    ensures { result ≡ same_bytes a.now b.now }
{
    a == b
}

// Whether an image differs from the copy at the front of the room; false where it is longer than the room.
pub fn differs(image: &[u8], room: &[u8]) -> bool
    ensures { result ≡ (leb (length image.now) (length room.now) && not (same_bytes (take (length image.now) room.now) image.now)) }
{
    let n = image.len();
    n <= room.len() && !same_bytes(&room[..n], image)
}

// Room for the largest image; a function makes it, so that no proof holds its octets.
pub fn image_room() -> [u8; 41024]
    ensures { 41024 ≡ length result }
{
    [0u8; 41024]
}
