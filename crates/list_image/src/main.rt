// Reads an image from standard input and writes its listing; or only `refused`, the number and the place.
#![tactic(auto)]

use report::{IMAGE_MOST, print_refusal, with_input, write_output};
use std::io;

// Lists an image, and writes the listing.
fn run(rt: &impl Print, image: &[u8]) -> io::Result<()> {
    write_output(
        rt,
        |output| listing::list_image(image, output),
        |r| print_refusal(rt, r),
    )
}

fn main(rt: HostRuntime) -> io::Result<()> {
    with_input(&rt, &mut [0u8; IMAGE_MOST], |image| run(&rt, image))
}

#[cfg(test)]
mod tests {
    use listing::sound::SoundImage;
    use listing::text::Writer;

    // The image of `1 + 2`.
    const IMAGE: [u8; 36] = [
        0x50, 0, 8, 0, 0, 0, 0, 0, 1, 1, 2, 0x51, 0, 22, 0x60, 0, 8, 0, 0, 0, 0, 0, 0, 0, 1, 0x60,
        0, 8, 0, 0, 0, 0, 0, 0, 0, 2,
    ];

    // Its code, and its pool of two, put one by one by another crate than `listing`.
    #[test]
    fn puts_code_and_pool(rt: HostRuntime) {
        let parts = SoundImage { bytes: &IMAGE }.parts();
        let mut output = [0u8; 100];
        let mut writer = Writer {
            output: &mut output,
            at: 0,
        };
        writer.put_code(parts.code);
        writer.put_pool(parts.pool, 2);
        let end = writer.at;
        let text =
            b"0000 Constant 0\n0003 Constant 1\n0006 Add\n0007 Pop\npool 2\n0 integer 1\n1 integer 2\n";
        assert_eq!(rt; end, text.len());
        assert!(rt; output.starts_with(text));
    }
}
