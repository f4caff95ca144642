// What a pay line's name says: whose line it is and what for.
ghost use Rattle.std.specs.Prelude.{◌≡◌};
ghost use Rattle.call.specs.PayLine.{line_seat, line_position, line_place, line_kind};

#[unsafe(no_mangle)]
pub extern "C" fn discgauze_line_seat(name: u32) -> u8
    ensures { result ≡ line_seat name }
{
    discgauze::lines::discgauze_line_seat(name)
}

#[unsafe(no_mangle)]
pub extern "C" fn discgauze_line_position(name: u32) -> u8
    ensures { result ≡ line_position name }
{
    discgauze::lines::discgauze_line_position(name)
}

// The place of a hand; 0 where the line is for no hand.
#[unsafe(no_mangle)]
pub extern "C" fn discgauze_line_place(name: u32) -> u8
    ensures { result ≡ line_place name }
{
    discgauze::lines::discgauze_line_place(name)
}

// 0 a hand, 1 an insurance, 1 + k a side stake of kind k.
#[unsafe(no_mangle)]
pub extern "C" fn discgauze_line_kind(name: u32) -> u8
    ensures { result ≡ line_kind name }
{
    discgauze::lines::discgauze_line_kind(name)
}
