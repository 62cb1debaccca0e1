// "datapoints 0 to 1000", "items 0 to 64", "parameter bytes 0 to 255".

pub const MOST_DATAPOINTS: usize = 1000;

pub const MOST_ITEMS: usize = 64;

pub const MOST_PARAMETERS: usize = 255;
