use cap_bytes::Part;

pub const HEADER: Part = Part(1);

pub const DIRECTORY: Part = Part(2);

pub const APPLET: Part = Part(3);

pub const IMPORT: Part = Part(4);

pub const CONSTANT_POOL: Part = Part(5);

pub const CLASS: Part = Part(6);

pub const METHOD: Part = Part(7);

pub const STATIC_FIELD: Part = Part(8);

pub const REF_LOCATION: Part = Part(9);

pub const EXPORT: Part = Part(10);

pub const DESCRIPTOR: Part = Part(11);

pub const DEBUG: Part = Part(12);
