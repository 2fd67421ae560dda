// The text of the supplied program.
ghost use Rattle.std.specs.Prelude.{◌≡◌};
ghost use Rattle.lb_bulb.specs.Source.{source_text};

/// The text of the supplied program, in ASCII, each line ended by a line feed. That `program` is
/// its tree is tested.
pub fn source() -> &'static [u8]
    ensures text { result.now ≡ source_text }
{
    b"\
fn spi_xchg(b, e) -> (r, e) {
  r = 0;
  if (e == 0) {
    n = 1000;
    r = 0x80000000;
    while ((r >> 31) & (0 < n)) { r = MMIOREAD(0x10024048); n = (n - 1); }
    e = (r >> 31);
    if (e == 0) {
      MMIOWRITE(0x10024048, b);
      n = 1000;
      r = 0x80000000;
      while ((r >> 31) & (0 < n)) { r = MMIOREAD(0x1002404C); n = (n - 1); }
      e = (r >> 31);
      r = (r & 255);
    }
  }
}
fn lan_read(a) -> (v) {
  MMIOWRITE(0x10024018, 2);
  x, e = spi_xchg(11, 0);
  x, e = spi_xchg((a >> 8), e);
  x, e = spi_xchg((a & 255), e);
  x, e = spi_xchg(0, e);
  v, e = spi_xchg(0, e);
  x, e = spi_xchg(0, e);
  v = (v | (x << 8));
  x, e = spi_xchg(0, e);
  v = (v | (x << 16));
  x, e = spi_xchg(0, e);
  v = (v | (x << 24));
  MMIOWRITE(0x10024018, 0);
  while e { skip; }
}
fn lan_write(a, v) {
  MMIOWRITE(0x10024018, 2);
  x, e = spi_xchg(2, 0);
  x, e = spi_xchg((a >> 8), e);
  x, e = spi_xchg((a & 255), e);
  x, e = spi_xchg((v & 255), e);
  x, e = spi_xchg(((v >> 8) & 255), e);
  x, e = spi_xchg(((v >> 16) & 255), e);
  x, e = spi_xchg((v >> 24), e);
  MMIOWRITE(0x10024018, 0);
  while e { skip; }
}
fn init() {
  MMIOWRITE(0x10012038, 0x3C);
  MMIOWRITE(0x10012008, 0x800000);
  n = 1000;
  bad = 1;
  while (bad & (0 < n)) {
    v = lan_read(0x64);
    bad = ((v == 0x87654321) == 0);
    n = (n - 1);
  }
  while bad { skip; }
  lan_write(0x74, 0x100000);
  lan_write(0xA8, 12);
  lan_write(0xA4, 0x80000001);
  n = 1000;
  bad = 1;
  while (bad & (0 < n)) {
    v = lan_read(0xA4);
    bad = (v >> 31);
    n = (n - 1);
  }
  while bad { skip; }
}
fn loop() {
  stackalloc 1520 as buf {
    v = lan_read(0x7C);
    if ((v >> 16) & 255) {
      s = lan_read(0x40);
      len = ((s >> 16) & 0x3FFF);
      i = 0;
      while (i < len) {
        v = lan_read(0);
        if (i < 1520) { store4((buf + i), v); }
        i = (i + 4);
      }
      bad = ((s >> 15) & 1);
      if (len < 43) { bad = 1; }
      if (1520 < len) { bad = 1; }
      if (bad == 0) {
        ok = (load1((buf + 12)) == 8);
        ok = (ok & (load1((buf + 13)) == 0));
        ok = (ok & (load1((buf + 14)) == 0x45));
        ok = (ok & (load1((buf + 23)) == 0x11));
        if ok {
          c = (load1((buf + 42)) & 1);
          v = MMIOREAD(0x1001200C);
          v = ((v & 0xFF7FFFFF) | (c << 23));
          MMIOWRITE(0x1001200C, v);
        }
      }
    }
  }
}
"
}
