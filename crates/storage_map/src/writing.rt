// Texts with numbers in them.
use line_tool::pen::Pen;

// A text in which each @ stands for the next of the numbers.
pub fn write(pen: &mut Pen, text: &[u8], numbers: &[u32]) {
    let mut rest = numbers.iter();
    for &b in text {
        if b == b'@' {
            if let Some(&n) = rest.next() {
                pen.decimal(n);
            }
        } else {
            pen.text(&[b]);
        }
    }
}
