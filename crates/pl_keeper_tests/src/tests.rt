mod keepers;
