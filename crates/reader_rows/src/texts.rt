//! The texts of examples/, which a test cannot read: `.ci/run` compares them with the files.

pub const SMALL_RIG: &str = r#"version = 1

[[unit]]
target = 0
lun = 0
blocks = 64
pattern = "count"
"#;

pub const REALISTIC_RIG: &str = r#"version = 1

[[unit]]
target = 0
lun = 0
blocks = 4096

[[unit]]
target = 0
lun = 1
blocks = 4096

[[unit]]
target = 1
lun = 0
blocks = 4096
"#;

pub const ROGUE_RIG: &str = r#"version = 2
retries = 1
autosense = true

[[unit]]
target = 0
lun = 0
blocks = 128
pattern = "count"
depth = 200
disconnects = 4
refusals = 1

[[unit]]
target = 3
lun = 2
blocks = 16
depth = 8
rogue = true

[[unit]]
target = 5
lun = 0
blocks = 16
depth = 1
absent = true
"#;

pub const SMALL_WORK: &str = r#"version = 1

[[submitter]]

[[submitter.command]]
unit = 0
cdb = "2a000000000500000100"
segments = [512]
direction = "out"
fill = 9

[[submitter.command]]
unit = 0
cdb = "28000000000500000100"
segments = [512]
direction = "in"
wait = true
"#;

pub const REALISTIC_WORK: &str = r#"version = 1

[[submitter]]
command = [
  { unit = 0, cdb = "2a000000000000000800", segments = [4096], direction = "out", fill = 0 },
  { unit = 1, cdb = "28000000003800000800", segments = [4096], direction = "in" },
  { unit = 2, cdb = "2a000000007000000800", segments = [4096], direction = "out", fill = 2 },
  { unit = 0, cdb = "2800000000a800000800", segments = [4096], direction = "in" },
  { unit = 1, cdb = "2a00000000e000000800", segments = [4096], direction = "out", fill = 4 },
  { unit = 2, cdb = "28000000011800000800", segments = [4096], direction = "in" },
  { unit = 0, cdb = "2a000000015000000800", segments = [4096], direction = "out", fill = 6 },
  { unit = 1, cdb = "28000000018800000800", segments = [4096], direction = "in" },
  { unit = 2, cdb = "2a00000001c000000800", segments = [4096], direction = "out", fill = 8 },
  { unit = 0, cdb = "2800000001f800000800", segments = [4096], direction = "in" },
]

[[submitter]]
command = [
  { unit = 1, cdb = "2a000000023000000800", segments = [4096], direction = "out", fill = 10 },
  { unit = 2, cdb = "28000000026800000800", segments = [4096], direction = "in" },
  { unit = 0, cdb = "2a00000002a000000800", segments = [4096], direction = "out", fill = 12 },
  { unit = 1, cdb = "2800000002d800000800", segments = [4096], direction = "in" },
  { unit = 2, cdb = "2a000000031000000800", segments = [4096], direction = "out", fill = 14 },
  { unit = 0, cdb = "28000000034800000800", segments = [4096], direction = "in" },
  { unit = 1, cdb = "2a000000038000000800", segments = [4096], direction = "out", fill = 16 },
  { unit = 2, cdb = "2800000003b800000800", segments = [4096], direction = "in" },
  { unit = 0, cdb = "2a00000003f000000800", segments = [4096], direction = "out", fill = 18 },
  { unit = 1, cdb = "28000000042800000800", segments = [4096], direction = "in" },
]

[[submitter]]
command = [
  { unit = 2, cdb = "2a000000046000000800", segments = [4096], direction = "out", fill = 20 },
  { unit = 0, cdb = "28000000049800000800", segments = [4096], direction = "in" },
  { unit = 1, cdb = "2a00000004d000000800", segments = [4096], direction = "out", fill = 22 },
  { unit = 2, cdb = "28000000050800000800", segments = [4096], direction = "in" },
  { unit = 0, cdb = "2a000000054000000800", segments = [4096], direction = "out", fill = 24 },
  { unit = 1, cdb = "28000000057800000800", segments = [4096], direction = "in" },
  { unit = 2, cdb = "2a00000005b000000800", segments = [4096], direction = "out", fill = 26 },
  { unit = 0, cdb = "2800000005e800000800", segments = [4096], direction = "in" },
  { unit = 1, cdb = "2a000000062000000800", segments = [4096], direction = "out", fill = 28 },
  { unit = 2, cdb = "28000000065800000800", segments = [4096], direction = "in" },
]

[[submitter]]
command = [
  { unit = 0, cdb = "2a000000069000000800", segments = [4096], direction = "out", fill = 30 },
  { unit = 1, cdb = "2800000006c800000800", segments = [4096], direction = "in" },
  { unit = 2, cdb = "2a000000070000000800", segments = [4096], direction = "out", fill = 32 },
  { unit = 0, cdb = "28000000073800000800", segments = [4096], direction = "in" },
  { unit = 1, cdb = "2a000000077000000800", segments = [4096], direction = "out", fill = 34 },
  { unit = 2, cdb = "2800000007a800000800", segments = [4096], direction = "in" },
  { unit = 0, cdb = "2a00000007e000000800", segments = [4096], direction = "out", fill = 36 },
  { unit = 1, cdb = "28000000081800000800", segments = [4096], direction = "in" },
  { unit = 2, cdb = "2a000000085000000800", segments = [4096], direction = "out", fill = 38 },
  { unit = 0, cdb = "28000000088800000800", segments = [4096], direction = "in" },
]

[[act]]
kind = "abort"
submitter = 0
command = 6
after = 5

[[act]]
kind = "abort"
submitter = 2
command = 3
after = 5

[[act]]
kind = "device"
target = 1
after = 5
"#;

pub const ROGUE_WORK: &str = r#"version = 1

[[submitter]]

[[submitter.command]]
unit = 0
cdb = "28000000000000000200"
segments = [100, 300, 624]
direction = "in"

[[submitter.command]]
unit = 1
cdb = "28000000000000000100"
segments = [512]
direction = "in"
when_full = "skip"

[[submitter.command]]
unit = 0
cdb = "030000001200"
segments = [18]
direction = "in"
wait = true

[[submitter]]

[[submitter.command]]
unit = 2
cdb = "000000000000"

[[submitter.command]]
unit = 0
cdb = "2A000000000A00000100"
segments = [512]
direction = "out"
fill = 255

[[act]]
kind = "abort"
submitter = 0
command = 1

[[act]]
kind = "device"
target = 0
after = 1

[[act]]
kind = "bus"
after = 2
"#;
