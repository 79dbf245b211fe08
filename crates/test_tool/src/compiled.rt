//! Images of compiled programs, read back.

use compile_chain::compile;
use elf_image::{Image, fits, read_image, write_image};
use harden_lint::lint;
use std::process::Abort;
use std::test::Fail;
use window_lister::windows;

const TAPS: &[u8] =
    b"int taps[16] = {1,2,3,4,5,6,7,8,8,7,6,5,4,3,2,1}; int line[16]; int main(void){int n = in_word(); for (int k = 0; k < n; k++) { line[k & 15] = in_word(); int sum = 0; for (int j = 0; j < 16; j++) sum += taps[j] * line[(k - j) & 15]; out_word(sum); } return 0;}";

// The file of the image of a source.
fn file_of(rt: &(impl AllocGlobal + Abort), source: &[u8]) -> Result<Vec<u8>, Fail> {
    let image = compile(rt.alloc(), source)?;
    assert!(rt; fits(&image));
    Ok(write_image(rt.alloc(), &image)?)
}

// Whether an image is written as these bytes, the lint accepts its text, and its windows are those of the text.
fn is_whole(rt: &(impl AllocGlobal + Abort), image: &Image, bytes: &[u8]) -> Result<bool, Fail> {
    let text = image.text.as_slice();
    assert!(rt; fits(image) && text.len() <= 10_000);
    let again = write_image(rt.alloc(), image)?;
    let typing = lint(rt.alloc(), text, image.entry)?;
    let list = windows(rt.alloc(), text, &typing)?;
    Ok(again.as_slice() == bytes && list.as_slice() == image.windows.as_slice())
}

#[test]
fn reads_back_what_it_put(rt: HostRuntime) -> Result<(), Fail> {
    let sources: [&[u8]; 5] = [
        b"int main(void){return 0;}",
        b"int main(void){out_word(-1); out_word(2147483647); return 255;}",
        b"int main(void){out_word(1); out_word(1 / in_word()); return 0;}",
        b"int main(void){int a = in_word(); int b = in_word(); int c = in_word(); if ((a && b) || c) out_word(1); else out_word(2); return 0;}",
        TAPS,
    ];
    for source in sources {
        let bytes = file_of(&rt, source)?;
        let image = read_image(rt.alloc(), &bytes)?;
        assert!(rt; is_whole(&rt, &image, &bytes)?);
    }
    Ok(())
}

// How many words of a text are loads.
fn loads(text: &[u32]) -> u32 {
    let mut count: u32 = 0;
    for word in text {
        if *word >> 26 == 35 {
            count = count.saturating_add(1);
        }
    }
    count
}

// Variables of a `main` with few of them stand in registers: the loads are those of return addresses and of parameters, each twice.
#[test]
fn loads_no_variable(rt: HostRuntime) -> Result<(), Fail> {
    let rows: [(&[u8], u32); 2] = [
        (
            b"int main(void){int a = in_word(); int b = in_word(); out_word(a + b); return 0;}",
            2,
        ),
        (
            b"int f(int x){return x + x;} int main(void){return f(in_word());}",
            6,
        ),
    ];
    for (source, count) in rows {
        let image = compile(rt.alloc(), source)?;
        assert!(rt; loads(image.text.as_slice()) == count);
    }
    Ok(())
}

// Whether a pair is listed.
fn is_listed(image: &Image, address: u32, register: u8) -> bool {
    for pair in image.windows.as_slice() {
        if *pair == (address, register) {
            return true;
        }
    }
    false
}

// How many stores a text has, and how many of them have their value in a window that is not their base too.
fn stores(image: &Image) -> (u32, u32) {
    let mut all: u32 = 0;
    let mut open: u32 = 0;
    let mut address: u32 = 0x0040_0000;
    for word in image.text.as_slice() {
        let base = (*word >> 21) & 31;
        let value = (*word >> 16) & 31;
        if *word >> 26 == 43 {
            all = all.saturating_add(1);
            if value != base && is_listed(image, address, value as u8) {
                open = open.saturating_add(1);
            }
        }
        address = address.wrapping_add(4);
    }
    (all, open)
}

// A store of an element and of a return address, each twice; a value awaits its use nowhere, since what a store puts in memory is compared
// again where it is used.
#[test]
fn leaves_no_stored_value_open(rt: HostRuntime) -> Result<(), Fail> {
    let source: &[u8] =
        b"int a[2] = {10, 0}; int main(void){a[0] = 5; out_word(a[0] + a[1]); return 0;}";
    let image = compile(rt.alloc(), source)?;
    assert!(rt; stores(&image) == (4, 0));
    Ok(())
}
