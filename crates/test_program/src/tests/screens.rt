//! Text that is omitted while a screen is full, and the line about it.

use super::check_equal;
use resp_io::device::Sink;
use resp_tap::screen::Screen;

/// The most bytes that the screens hold.
const MOST: usize = 100;

/// Writes a text to the screen, shows all that the screen holds, and has it say how much it omitted.
fn left_out(screen: &mut Screen, text: &[u8]) {
    let _ = screen.write(text);
    screen.shown(screen.text().len());
    let _ = screen.say_what_is_left_out();
}

#[test]
fn a_line_that_was_cut_is_ended_before_the_count(rt: HostRuntime) {
    let mut screen = Screen::new(rt.alloc(), MOST);
    left_out(&mut screen, &[b'x'; 150]);
    check_equal(&rt, screen.text(), b"\n50 bytes not shown\n".as_slice());
}

#[test]
fn a_whole_line_is_not_ended_again(rt: HostRuntime) {
    let mut screen = Screen::new(rt.alloc(), MOST);
    let _ = screen.write(&[b'x'; 99]);
    let _ = screen.write(b"\n");
    left_out(&mut screen, b"0123456789");
    check_equal(&rt, screen.text(), b"10 bytes not shown\n".as_slice());
}

#[test]
fn nothing_is_said_without_room_for_the_line(rt: HostRuntime) {
    let mut screen = Screen::new(rt.alloc(), MOST);
    let _ = screen.write(&[b'x'; 150]);
    screen.shown(63);
    let _ = screen.say_what_is_left_out();
    check_equal(&rt, (screen.text().len(), screen.unshown()), (37, 50));
    screen.shown(1);
    let _ = screen.say_what_is_left_out();
    check_equal(&rt, (screen.text().len(), screen.unshown()), (36 + 20, 0));
}

#[test]
fn lines_of_json_are_omitted_whole(rt: HostRuntime) {
    let mut screen = Screen::new(rt.alloc(), 8_300).with_json(true);
    let _ = screen.write(&[b'x'; 106]);
    let _ = screen.write(&[b'x'; 3]);
    let _ = screen.write(b"\n");
    // Less than 8,192 bytes are free.
    let _ = screen.write(&[b'x'; 30]);
    let _ = screen.say_what_is_left_out();
    check_equal(&rt, (screen.text().len(), screen.unshown()), (110, 30));
    screen.shown(110);
    let _ = screen.say_what_is_left_out();
    let line = b"{\"kind\":\"omitted\",\"bytes\":30}\n";
    check_equal(&rt, screen.text(), line.as_slice());
}
